//! The next exchange of an open transaction.
ghost use Rattle.std.specs.Prelude.{◌≡◌, ℕ, ◌<◌, ◌≤◌, ◌++◌, true, Some};
ghost use Rattle.arrayvec.specs.ArrayVec.{array_vec_len};
ghost use Rattle.ep_rules.specs.EntryPoint.Talk.{Talk};
ghost use Rattle.ep_claim.specs.Lanes.Standing.{Standing, after_hearing, events_of};
ghost use Rattle.poll_activate.specs.Meaning.{ends_of};
ghost use Rattle.rf_frame.specs.Meaning.{heard_of};
ghost use Rattle.session_phases.specs.Room.{HasRoom};
ghost use Rattle.session_phases.specs.Shown.{kept_of, kept_then};
ghost use Rattle.session_phases.specs.Stands.{link_held};
ghost use Rattle.session_phases.specs.Told.{told_by};
ghost use Rattle.entry_session.specs.Turns.{view_in, task_after, is_open, is_ask, turn_of, ShowsCause, StandsFor, Answers};

use crate::holding::Task;
use kernel_port::{End, EventList, Kernels};
use rf_frame::{Ask, Heard};
use session_phases::{Onward, Presentation, hear};

/// Takes what was heard in the exchange that was asked last. What is asked in the next one is written into `ask`, or the
/// transaction has ended.
pub(crate) fn hear_task<K: Kernels>(
    task: &mut Task<K>,
    presentation: &mut Presentation,
    heard: &Heard,
    events: &mut EventList,
    ask: &mut Ask,
) -> Option<End>
    requires empty { array_vec_len events.old ≡ 0 }
    requires room { HasRoom presentation.old.arena.contents }
    requires opened { is_open (view_in K.state K.is_open K.is_fresh presentation.old (Some task.old)) ≡ true }
    ensures stands { (talk : Talk) (fsdi : ℕ) (st : Standing) → StandsFor K.steps (view_in K.state K.is_open K.is_fresh presentation.old (Some task.old)) talk fsdi st
        → StandsFor K.steps (view_in K.state K.is_open K.is_fresh presentation.new (task_after result task.new)) talk fsdi (after_hearing fsdi talk (heard_of heard.now) st) }
    ensures events { (talk : Talk) (fsdi : ℕ) (st : Standing) → StandsFor K.steps (view_in K.state K.is_open K.is_fresh presentation.old (Some task.old)) talk fsdi st
        → events_of talk st ++ told_by events.new.items ≡ events_of talk (after_hearing fsdi talk (heard_of heard.now) st) }
    ensures answers { (talk : Talk) (fsdi : ℕ) (st : Standing) → StandsFor K.steps (view_in K.state K.is_open K.is_fresh presentation.old (Some task.old)) talk fsdi st
        → Answers (turn_of result ask.new) fsdi talk (after_hearing fsdi talk (heard_of heard.now) st) }
    ensures cause { (talk : Talk) (fsdi : ℕ) (st : Standing) → StandsFor K.steps (view_in K.state K.is_open K.is_fresh presentation.old (Some task.old)) talk fsdi st
        → ShowsCause (turn_of result ask.new) (heard_of heard.now) st.doing (ends_of presentation.new.rounds.items) (link_held presentation.new.link)
        (events_of talk (after_hearing fsdi talk (heard_of heard.now) st)) }
    ensures is_open { is_open (view_in K.state K.is_open K.is_fresh presentation.new (task_after result task.new)) ≡ is_ask (turn_of result ask.new) }
    ensures room { HasRoom presentation.new.arena.contents }
    ensures kept { (talk : Talk) (fsdi : ℕ) (st : Standing) → StandsFor K.steps (view_in K.state K.is_open K.is_fresh presentation.old (Some task.old)) talk fsdi st
        → kept_of (link_held presentation.new.link) ≡ kept_then (heard_of heard.now) st (kept_of (link_held presentation.old.link)) }
{
    match hear(
        task.phase,
        &task.prepared,
        &mut task.kernels,
        task.fsdi,
        presentation,
        heard,
        events,
        ask,
    ) {
        Onward::Goes(phase) => {
            task.phase = phase;
            None
        }
        Onward::Ended(end) => Some(end),
    }
}
