//! What follows an exchange.
ghost use Rattle.std.specs.Prelude.{◌≡◌, ℕ, ◌+◌, ◌<◌, ◌≤◌, List, [], ◌++◌, true};
ghost use Rattle.arrayvec.specs.ArrayVec.{array_vec_len};
ghost use Rattle.ep_rules.specs.EntryPoint.Event.{Event as EventData};
ghost use Rattle.ep_rules.specs.EntryPoint.Talk.{Talk};
ghost use Rattle.ep_claim.specs.Lanes.Standing.{Standing, after_hearing};
ghost use Rattle.rf_frame.specs.Meaning.{heard_of};
ghost use Rattle.session_phases.specs.Room.{HasRoom};
ghost use Rattle.poll_activate.specs.Meaning.{ends_of};
ghost use Rattle.session_phases.specs.Plain.{onward_of, step_of, wish_of};
ghost use Rattle.session_phases.specs.Shown.{kept_of, kept_then, rounds_of, FailedThen, Fits, FitsThen};
ghost use Rattle.session_phases.specs.Stands.{StepStands, WishStands, Turned, can_go_on, carries, goes_on, link_held};
ghost use Rattle.session_phases.specs.Told.{told_by};
ghost use Rattle.session_phases.specs.Wishes.{serves_wish};

use crate::closing::{finish, start_b};
use crate::linking::hear_command;
use crate::polling::hear_round;
use crate::steps::{Onward, Phase, Presentation, Wish};
use kernel_port::{End, EventList, Kernels};
use pre_processing::Prepared;
use rf_frame::{Ask, Heard};

/// After an exchange of what is wished of the card.
fn hear_wish<K: Kernels>(
    wish: Wish,
    prepared: &Prepared,
    kernels: &mut K,
    fsdi: u8,
    presentation: &mut Presentation,
    heard: &Heard,
    events: &mut EventList,
    ask: &mut Ask,
) -> Onward
    requires code { fsdi < 16 }
    requires events { array_vec_len events.old + 6 ≤ 24 }
    requires room { HasRoom presentation.old.arena.contents }
    requires carried { carries (link_held presentation.old.link) (wish_of wish presentation.old.selection) ≡ true }
    requires served { serves_wish (K.is_open kernels.old) (K.is_fresh kernels.old) (wish_of wish presentation.old.selection) ≡ true }
    ensures turned { (talk : Talk) (st : Standing) (before : List EventData)
        → WishStands K.steps prepared.now.list (K.state kernels.old) presentation.old.arena.objects (link_held presentation.old.link) (wish_of wish presentation.old.selection) talk st (before ++ told_by events.old.items)
        → Turned K.steps prepared.now.list (K.state kernels.new) presentation.new.arena.objects fsdi (link_held presentation.new.link) (onward_of result ask.new presentation.new.round presentation.new.selection) talk
        (after_hearing fsdi talk (heard_of heard.now) st) (before ++ told_by events.new.items) }
    ensures goes_on { goes_on (K.is_open kernels.new) (K.is_fresh kernels.new) (link_held presentation.new.link) (onward_of result ask.new presentation.new.round presentation.new.selection) ≡ true }
    ensures room { HasRoom presentation.new.arena.contents }
    ensures rounds { (talk : Talk) (st : Standing) (before : List EventData)
        → WishStands K.steps prepared.now.list (K.state kernels.old) presentation.old.arena.objects (link_held presentation.old.link) (wish_of wish presentation.old.selection) talk st (before ++ told_by events.old.items)
        → ends_of presentation.old.rounds.items ≡ rounds_of st
        → ends_of presentation.new.rounds.items ≡ rounds_of (after_hearing fsdi talk (heard_of heard.now) st) }
    ensures fits { FitsThen (onward_of result ask.new presentation.new.round presentation.new.selection) (ends_of presentation.new.rounds.items) }
    ensures failed { (talk : Talk) (st : Standing) (before : List EventData)
        → WishStands K.steps prepared.now.list (K.state kernels.old) presentation.old.arena.objects (link_held presentation.old.link) (wish_of wish presentation.old.selection) talk st (before ++ told_by events.old.items)
        → FailedThen (onward_of result ask.new presentation.new.round presentation.new.selection) (heard_of heard.now) st.doing (link_held presentation.new.link) }
    ensures kept { (talk : Talk) (st : Standing) (before : List EventData)
        → WishStands K.steps prepared.now.list (K.state kernels.old) presentation.old.arena.objects (link_held presentation.old.link) (wish_of wish presentation.old.selection) talk st (before ++ told_by events.old.items)
        → kept_of (link_held presentation.new.link) ≡ kept_then (heard_of heard.now) st (kept_of (link_held presentation.old.link)) }
{
    match wish {
        Wish::Command(purpose) => hear_command(
            purpose,
            &mut presentation.selection,
            prepared,
            kernels,
            &mut presentation.arena,
            &mut presentation.link.end,
            heard,
            events,
            ask,
        ),
        Wish::Close { again: true } => start_b(
            fsdi,
            &mut presentation.rounds,
            &mut presentation.round,
            ask,
        ),
        Wish::Close { again: false } => finish(End::Done, events),
    }
}

/// Takes what was heard in the exchange of a step, and says what follows. At most 24 events are noted.
pub fn hear<K: Kernels>(
    phase: Phase,
    prepared: &Prepared,
    kernels: &mut K,
    fsdi: u8,
    presentation: &mut Presentation,
    heard: &Heard,
    events: &mut EventList,
    ask: &mut Ask,
) -> Onward
    requires code { fsdi < 16 }
    requires empty { array_vec_len events.old ≡ 0 }
    requires room { HasRoom presentation.old.arena.contents }
    requires going { can_go_on (K.is_open kernels.old) (K.is_fresh kernels.old) (link_held presentation.old.link) (step_of phase presentation.old.round presentation.old.selection) ≡ true }
    ensures turned { (talk : Talk) (st : Standing) (said : List EventData)
        → StepStands K.steps prepared.now.list (K.state kernels.old) presentation.old.arena.objects fsdi (link_held presentation.old.link) (step_of phase presentation.old.round presentation.old.selection) talk st said
        → Turned K.steps prepared.now.list (K.state kernels.new) presentation.new.arena.objects fsdi (link_held presentation.new.link) (onward_of result ask.new presentation.new.round presentation.new.selection) talk
        (after_hearing fsdi talk (heard_of heard.now) st) (said ++ told_by events.new.items) }
    ensures goes_on { goes_on (K.is_open kernels.new) (K.is_fresh kernels.new) (link_held presentation.new.link) (onward_of result ask.new presentation.new.round presentation.new.selection) ≡ true }
    ensures room { HasRoom presentation.new.arena.contents }
    ensures rounds { (talk : Talk) (st : Standing) (said : List EventData)
        → StepStands K.steps prepared.now.list (K.state kernels.old) presentation.old.arena.objects fsdi (link_held presentation.old.link) (step_of phase presentation.old.round presentation.old.selection) talk st said
        → Fits (step_of phase presentation.old.round presentation.old.selection) (ends_of presentation.old.rounds.items) → ends_of presentation.old.rounds.items ≡ rounds_of st
        → ends_of presentation.new.rounds.items ≡ rounds_of (after_hearing fsdi talk (heard_of heard.now) st) }
    ensures fits { Fits (step_of phase presentation.old.round presentation.old.selection) (ends_of presentation.old.rounds.items) → FitsThen (onward_of result ask.new presentation.new.round presentation.new.selection) (ends_of presentation.new.rounds.items) }
    ensures failed { (talk : Talk) (st : Standing) (said : List EventData)
        → StepStands K.steps prepared.now.list (K.state kernels.old) presentation.old.arena.objects fsdi (link_held presentation.old.link) (step_of phase presentation.old.round presentation.old.selection) talk st said
        → FailedThen (onward_of result ask.new presentation.new.round presentation.new.selection) (heard_of heard.now) st.doing (link_held presentation.new.link) }
    ensures kept { (talk : Talk) (st : Standing) (said : List EventData)
        → StepStands K.steps prepared.now.list (K.state kernels.old) presentation.old.arena.objects fsdi (link_held presentation.old.link) (step_of phase presentation.old.round presentation.old.selection) talk st said
        → kept_of (link_held presentation.new.link) ≡ kept_then (heard_of heard.now) st (kept_of (link_held presentation.old.link)) }
{
    match phase {
        Phase::Polling => hear_round(fsdi, presentation, heard, events, ask),
        Phase::Waiting(wish) => hear_wish(
            wish,
            prepared,
            kernels,
            fsdi,
            presentation,
            heard,
            events,
            ask,
        ),
    }
}
