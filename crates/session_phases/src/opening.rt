//! The begin of a transaction, up to its first exchange or its end.
ghost use Rattle.std.specs.Prelude.{◌≡◌, ℕ, ◌+◌, ◌<◌, ◌≤◌, List, [], ◌++◌, true, length, None, if◌then◌else◌};
ghost use Rattle.arrayvec.specs.ArrayVec.{array_vec_len};
ghost use Rattle.ep_base.specs.declared.limits.TheConstants.{TYPE_COMBINATIONS};
ghost use Rattle.ep_rules.specs.EntryPoint.Transaction.{say_ready, transaction};
ghost use Rattle.ep_rules.specs.EntryPoint.Event.{Event as EventData, Finished};
ghost use Rattle.ep_rules.specs.EntryPoint.Talk.{Talk, Result, Over};
ghost use Rattle.ep_claim.specs.Lanes.Standing.{started};
ghost use Rattle.session_phases.specs.Opening.{opens, OpenDecided};
ghost use Rattle.poll_activate.specs.Meaning.{ends_of};
ghost use Rattle.session_phases.specs.Plain.{onward_of};
ghost use Rattle.session_phases.specs.Shown.{DoneThen, FitsThen};
ghost use Rattle.session_phases.specs.Stands.{Turned, goes_on, link_held};
ghost use Rattle.session_phases.specs.Told.{Comes, told_by};

use crate::closing::{finish, start_b};
use crate::events::note;
use crate::steps::{Onward, Presentation};
use kernel_port::{End, Event, EventList, Kernels, Message, OutcomeKind};
use pre_processing::{Prepared, PreparedOne};
use rf_frame::Ask;

/// Notes what Pre-Processing found of each Combination.
fn note_list(ones: &[PreparedOne], events: &mut EventList)
    requires few { length ones.now ≤ TYPE_COMBINATIONS }
    requires events { array_vec_len events.old + length ones.now ≤ 24 }
    ensures goes { (talk : Talk) (results : List Result) (before : List EventData) (next : Talk)
        → Comes talk results (before ++ told_by events.old.items) (say_ready 1 ones.now next)
        → Comes talk results (before ++ told_by events.new.items) next }
    ensures count { array_vec_len events.new ≡ array_vec_len events.old + length ones.now }
{
    let mut number: u8 = 1;
    let mut rest = ones;
    'each: while let Some((one, others)) = rest.split_first() {
        let event = Event::Pre {
            number,
            one: one.copy(),
        };
        note(events, event);
        number += 1;
        rest = others;
    }
}

/// Notes all up to the first Start B, or up to the end where there is none, and says whether there is one.
pub fn open(prepared: &Prepared, events: &mut EventList) -> bool
    requires { array_vec_len events.old + TYPE_COMBINATIONS + 3 ≤ 24 }
    ensures goes { (talk : Talk) (results : List Result) (before : List EventData) (next : Talk)
        → Comes talk results (before ++ told_by events.old.items) (opens prepared.now.txn_type prepared.now.amount prepared.now.list next)
        → Comes talk results (before ++ told_by events.new.items) (if result then next else Over Finished) }
    ensures decided { OpenDecided result (told_by events.new.items) }
    ensures count { array_vec_len events.new ≤ array_vec_len events.old + TYPE_COMBINATIONS + 3 }
{
    let start = Event::Start {
        txn_type: prepared.txn_type(),
        amount: prepared.amount(),
    };
    note(events, start);
    note_list(prepared.list(), events);
    if prepared.any_allowed() {
        note(events, Event::Message(Message::PresentCard));
        return true;
    }
    note(events, Event::Outcome(OutcomeKind::TryAnother));
    note(events, Event::Message(Message::InsertOrSwipe));
    false
}

/// Begins a transaction after Pre-Processing: its first exchange, or its end where no Combination is allowed. Nothing is
/// left of the last one's link and rounds.
pub fn begin<K: Kernels>(
    prepared: &Prepared,
    kernels: &K,
    fsdi: u8,
    presentation: &mut Presentation,
    events: &mut EventList,
    ask: &mut Ask,
) -> Onward
    requires code { fsdi < 16 }
    requires empty { array_vec_len events.old ≡ 0 }
    ensures turned { let talk = transaction K.steps prepared.now.txn_type prepared.now.amount prepared.now.list (K.state kernels.now) in
        Turned K.steps prepared.now.list (K.state kernels.now) presentation.new.arena.objects fsdi (link_held presentation.new.link) (onward_of result ask.new presentation.new.round presentation.new.selection) talk (started talk) (told_by events.new.items) }
    ensures goes_on { goes_on (K.is_open kernels.now) (K.is_fresh kernels.now) (link_held presentation.new.link) (onward_of result ask.new presentation.new.round presentation.new.selection) ≡ true }
    ensures arena { presentation.new.arena ≡ presentation.old.arena }
    ensures rounds { presentation.new.rounds.items ≡ [] }
    ensures fits { FitsThen (onward_of result ask.new presentation.new.round presentation.new.selection) (ends_of presentation.new.rounds.items) }
    ensures done { DoneThen (onward_of result ask.new presentation.new.round presentation.new.selection) }
    ensures link { link_held presentation.new.link ≡ None }
{
    presentation.link.was_opened = false;
    presentation.rounds.clear();
    if open(prepared, events) {
        return start_b(fsdi, &mut presentation.rounds, &mut presentation.round, ask);
    }
    finish(End::Done, events)
}
