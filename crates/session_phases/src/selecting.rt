//! The candidates that are left, and what follows a final SELECT.
ghost use Rattle.std.specs.Prelude.{◌≡◌, ℕ, ◌+◌, ◌≤◌, List, ◌++◌, true, length};
ghost use Rattle.arrayvec.specs.ArrayVec.{array_vec_len};
ghost use Rattle.ep_rules.specs.EntryPoint.Event.{Event as EventData};
ghost use Rattle.ep_rules.specs.EntryPoint.Talk.{Talk, Result};
ghost use Rattle.session_phases.specs.Plain.{wish_of};
ghost use Rattle.session_phases.specs.Told.{told_by};
ghost use Rattle.session_phases.specs.Wishes.{Within, Selects, Chosen, Wished, RestartsAt, selects_left, serves_wish};

use crate::events::note;
use crate::offers::{is_success, put_answer, put_current};
use crate::running::activate;
use crate::steps::{Purpose, Selection, Wish};
use kernel_port::{Event, EventList, Kernels, Message, OutcomeKind};
use pre_processing::Prepared;
use tlv_arena::Arena;

/// The final SELECT of the first candidate that is left; where none is, the card is let go.
pub(crate) fn select_left<K: Kernels>(
    selection: &mut Selection,
    prepared: &Prepared,
    arena: &Arena,
    kernels: &K,
    events: &mut EventList,
) -> Wish
    requires { array_vec_len events.old + 2 ≤ 24 }
    ensures wishes { (talk : Talk) (results : List Result) (before : List EventData)
        → Within K.steps prepared.now.list arena.now.objects selection.old.rest (λ n. K.steps.restarts (K.state kernels.now) ≤ n) (Selects K.steps prepared.now.list (K.state kernels.now)) talk results (before ++ told_by events.old.items)
        → Wished K.steps prepared.now.list (K.state kernels.now) arena.now.objects talk results (before ++ told_by events.new.items) (wish_of result selection.new) }
    ensures serves { serves_wish (K.is_open kernels.now) (K.is_fresh kernels.now) (wish_of result selection.new) ≡ true }
    ensures falls { selects_left (wish_of result selection.new) ≤ length selection.old.rest }
    ensures restarts { (n m : ℕ) → m ≤ n → RestartsAt (wish_of result selection.new) n m }
    ensures count { array_vec_len events.new ≤ array_vec_len events.old + 2 }
{
    let command = &mut selection.command;
    let given = &mut selection.given;
    if put_current(&selection.rest, prepared, arena, command, given) {
        selection.rest.remove_current();
        return Wish::Command(Purpose::Final);
    }
    note(events, Event::Outcome(OutcomeKind::EndApplication));
    note(events, Event::Message(Message::TryAnotherCard));
    Wish::Close { again: false }
}

/// After the answer to a final SELECT: its kernel is activated where that is 9000, else the candidates after it follow.
pub(crate) fn after_select<K: Kernels>(
    selection: &mut Selection,
    prepared: &Prepared,
    arena: &Arena,
    kernels: &mut K,
    events: &mut EventList,
) -> Wish
    requires { array_vec_len events.old + 5 ≤ 24 }
    ensures wishes { (talk : Talk) (results : List Result) (before : List EventData)
        → Within K.steps prepared.now.list arena.now.objects selection.old.rest (λ n. K.steps.restarts (K.state kernels.old) ≤ n) (Chosen K.steps prepared.now.list (K.state kernels.old) selection.old.given selection.old.response) talk results (before ++ told_by events.old.items)
        → Wished K.steps prepared.now.list (K.state kernels.new) arena.now.objects talk results (before ++ told_by events.new.items) (wish_of result selection.new) }
    ensures serves { serves_wish (K.is_open kernels.new) (K.is_fresh kernels.new) (wish_of result selection.new) ≡ true }
    ensures falls { K.steps.commands (K.state kernels.new) + selects_left (wish_of result selection.new) ≤ K.steps.commands (K.state kernels.old) + length selection.old.rest }
    ensures restarts { RestartsAt (wish_of result selection.new) (K.steps.restarts (K.state kernels.old)) (K.steps.restarts (K.state kernels.new)) }
    ensures count { array_vec_len events.new ≤ array_vec_len events.old + 5 }
{
    if is_success(&selection.response) {
        put_answer(&mut selection.given, &selection.response);
        return activate(selection, prepared, arena, kernels, events);
    }
    select_left(selection, prepared, arena, kernels, events)
}
