//! What follows the response to a command.
ghost use Rattle.std.specs.Prelude.{◌≡◌, ℕ, ◌+◌, ◌<◌, ◌≤◌, List, [], ◌∷◌, ◌++◌, true};
ghost use Rattle.arrayvec.specs.ArrayVec.{array_vec_len};
ghost use Rattle.ep_rules.specs.EntryPoint.Event.{Event as EventData};
ghost use Rattle.ep_rules.specs.EntryPoint.Talk.{Talk, Result, Response as Responds};
ghost use Rattle.session_phases.specs.Plain.{Command as wishes_command, purpose_of, wish_of};
ghost use Rattle.session_phases.specs.Room.{HasRoom};
ghost use Rattle.session_phases.specs.Told.{told_by};
ghost use Rattle.session_phases.specs.Wishes.{Serves, Wished, RestartsAt, selects_left, serves, serves_wish};

use crate::directory::after_directory;
use crate::events::note;
use crate::running::after_command;
use crate::selecting::after_select;
use crate::steps::{Purpose, Selection, Wish};
use kernel_port::{Event, EventList, Kernels};
use pre_processing::Prepared;
use tlv_arena::Arena;

/// What is wished after the response to a command that was sent for this purpose. Both stand in the selection, and are
/// noted. What may still follow falls with each response: the final SELECTs and the kernels' commands, together.
pub fn respond<K: Kernels>(
    purpose: Purpose,
    selection: &mut Selection,
    prepared: &Prepared,
    arena: &mut Arena,
    kernels: &mut K,
    events: &mut EventList,
) -> Wish
    requires events { array_vec_len events.old + 6 ≤ 24 }
    requires room { HasRoom arena.old.contents }
    requires kernels { serves (K.is_open kernels.old) (K.is_fresh kernels.old) (purpose_of purpose selection.old) ≡ true }
    ensures wishes { (talk : Talk) (results : List Result) (before : List EventData)
        → Serves K.steps prepared.now.list (K.state kernels.old) arena.old.objects talk results (before ++ told_by events.old.items) selection.old.command (purpose_of purpose selection.old)
        → Wished K.steps prepared.now.list (K.state kernels.new) arena.new.objects talk (results ++ Responds selection.old.response ∷ []) (before ++ told_by events.new.items) (wish_of result selection.new) }
    ensures serves { serves_wish (K.is_open kernels.new) (K.is_fresh kernels.new) (wish_of result selection.new) ≡ true }
    ensures room { HasRoom arena.new.contents }
    ensures falls { K.steps.commands (K.state kernels.new) + selects_left (wish_of result selection.new)
        < K.steps.commands (K.state kernels.old) + selects_left (wishes_command selection.old.command (purpose_of purpose selection.old)) }
    ensures restarts { RestartsAt (wish_of result selection.new) (K.steps.restarts (K.state kernels.old)) (K.steps.restarts (K.state kernels.new)) }
    ensures count { array_vec_len events.new ≤ array_vec_len events.old + 6 }
{
    let command = selection.command.copy();
    let response = selection.response.copy();
    note(events, Event::Apdu { command, response });
    match purpose {
        Purpose::Directory => after_directory(selection, prepared, arena, kernels, events),
        Purpose::Final => after_select(selection, prepared, arena, kernels, events),
        Purpose::Kernel => after_command(selection, prepared, arena, kernels, events),
    }
}
