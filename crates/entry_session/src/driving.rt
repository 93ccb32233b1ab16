//! What is wished of a presented card, over a transport.
ghost use Rattle.std.specs.Prelude.{◌≡◌, ◌≤◌, ◌<◌, ◌+◌, ℕ, List, [], true, IfOk, IfErr, OnOk, IsErr, IsErrOf};
ghost use Rattle.ep_base.specs.Streams.Causes.{HasCause};
ghost use Rattle.ep_rules.specs.EntryPoint.Talk.{Talk};
ghost use Rattle.ep_rules.specs.EntryPoint.TransportRun.{Runs, all_taken};
ghost use Rattle.session_phases.specs.Plain.{Close as wishes_close, Command as wishes_command, Directory as for_directory, purpose_of, wish_of};
ghost use Rattle.session_phases.specs.Room.{HasRoom};
ghost use Rattle.session_phases.specs.Told.{told_by};
ghost use Rattle.session_phases.specs.Wishes.{RestartsAt, Serves, selects_left, serves, serves_wish};
ghost use Rattle.entry_session.specs.Causes.{Caused};
ghost use Rattle.entry_session.specs.Driven.{Reaches};
ghost use Rattle.entry_session.specs.Meaning.{left_of, CutsIn};

use crate::ran::Ran;
use crate::steps::{ended, say};
use kernel_port::{End, Event, EventList, Events, Kernels};
use link::{LinkEnd, Transport};
use pre_processing::Prepared;
use session_phases::{Purpose, Selection, Wish, respond};
use tlv_arena::Arena;

/// Events that were noted, one after the other.
pub(crate) fn say_each<E: Events>(list: &[Event], events: &mut E) -> Result<(), Ran>
    ensures taken { OnOk result (E.state events.new ≡ all_taken E.steps.take (E.state events.old) (told_by list.now)) }
    ensures cut { IfErr result (λ r. CutsIn E.steps (E.state events.old) (told_by list.now) r (E.state events.new)) }
    ensures cause { HasCause (E.faults events.old) (E.faults events.new) (IsErr result) }
    ensures same_reference { E.anchor events.new ≡ E.anchor events.old }
{
    let mut rest = list;
    'each: while let Some((event, others)) = rest.split_first() {
        say(events, event)?;
        rest = others;
    }
    Ok(())
}

/// The selection's command, sent for this purpose, and what is wished after its response.
fn exchange<K: Kernels, T: Transport, E: Events>(
    purpose: Purpose,
    selection: &mut Selection,
    prepared: &Prepared,
    arena: &mut Arena,
    kernels: &mut K,
    transport: &mut T,
    events: &mut E,
) -> Result<Wish, Ran>
    requires presented { T.presented transport.old ≡ true }
    requires room { HasRoom arena.old.contents }
    requires kernels { serves (K.is_open kernels.old) (K.is_fresh kernels.old) (purpose_of purpose selection.old) ≡ true }
    ensures goes { IfOk result (λ w. (talk : Talk) → Serves K.steps prepared.now.list (K.state kernels.old) arena.old.objects talk [] [] selection.old.command (purpose_of purpose selection.old)
        → Reaches K.steps prepared.now.list T.steps E.steps talk (T.state transport.old) (E.state events.old)
        (K.state kernels.new) arena.new.objects (wish_of w selection.new) (T.state transport.new) (E.state events.new)) }
    ensures stops { IfErr result (λ r. (talk : Talk) → Serves K.steps prepared.now.list (K.state kernels.old) arena.old.objects talk [] [] selection.old.command (purpose_of purpose selection.old)
        → Runs T.steps E.steps talk [] (T.state transport.old) (E.state events.old) (left_of r (T.state transport.new) (E.state events.new))) }
    ensures presented { OnOk result (T.presented transport.new ≡ true) }
    ensures serves { IfOk result (λ w. serves_wish (K.is_open kernels.new) (K.is_fresh kernels.new) (wish_of w selection.new) ≡ true) }
    ensures falls { IfOk result (λ w. K.steps.commands (K.state kernels.new) + selects_left (wish_of w selection.new)
        < K.steps.commands (K.state kernels.old) + selects_left (wishes_command selection.old.command (purpose_of purpose selection.old))) }
    ensures restarts { IfOk result (λ w. RestartsAt (wish_of w selection.new) (K.steps.restarts (K.state kernels.old)) (K.steps.restarts (K.state kernels.new))) }
    ensures room { HasRoom arena.new.contents }
    ensures cause { Caused (T.faults transport.old) (T.faults transport.new) (E.faults events.old) (E.faults events.new)
        (IsErrOf result Ran.Device) (IsErrOf result Ran.EventsFailed) }
    ensures same_reference { E.anchor events.new ≡ E.anchor events.old }
{
    match transport.transact(&selection.command) {
        Ok(response) => {
            selection.response = response;
            let mut list = EventList::new();
            let wish = respond(purpose, selection, prepared, arena, kernels, &mut list);
            say_each(list.as_slice(), events)?;
            Ok(wish)
        }
        Err(LinkEnd::Spent { bad: _ }) => Err(ended(events, End::Link)),
        Err(LinkEnd::Breach(_)) => Err(ended(events, End::Breach)),
        Err(LinkEnd::Device) => Err(Ran::Device),
    }
}

/// All that is wished of a card, from the command that asks for its directory on until it is to be let go, and whether a
/// new Start B follows then.
pub(crate) fn serve_card<K: Kernels, T: Transport, E: Events>(
    selection: &mut Selection,
    prepared: &Prepared,
    arena: &mut Arena,
    kernels: &mut K,
    transport: &mut T,
    events: &mut E,
) -> Result<bool, Ran>
    requires presented { T.presented transport.old ≡ true }
    requires room { HasRoom arena.old.contents }
    ensures goes { IfOk result (λ again. (talk : Talk) → Serves K.steps prepared.now.list (K.state kernels.old) arena.old.objects talk [] [] selection.old.command for_directory
        → Reaches K.steps prepared.now.list T.steps E.steps talk (T.state transport.old) (E.state events.old)
        (K.state kernels.new) arena.new.objects (wishes_close again) (T.state transport.new) (E.state events.new)) }
    ensures stops { IfErr result (λ r. (talk : Talk) → Serves K.steps prepared.now.list (K.state kernels.old) arena.old.objects talk [] [] selection.old.command for_directory
        → Runs T.steps E.steps talk [] (T.state transport.old) (E.state events.old) (left_of r (T.state transport.new) (E.state events.new))) }
    ensures presented { OnOk result (T.presented transport.new ≡ true) }
    ensures restarts { IfOk result (λ again. RestartsAt (wishes_close again) (K.steps.restarts (K.state kernels.old)) (K.steps.restarts (K.state kernels.new))) }
    ensures room { HasRoom arena.new.contents }
    ensures cause { Caused (T.faults transport.old) (T.faults transport.new) (E.faults events.old) (E.faults events.new)
        (IsErrOf result Ran.Device) (IsErrOf result Ran.EventsFailed) }
    ensures same_reference { E.anchor events.new ≡ E.anchor events.old }
{
    let mut wish = Wish::Command(Purpose::Directory);
    'each: loop {
        match wish {
            Wish::Command(purpose) => {
                wish = exchange(
                    purpose, selection, prepared, arena, kernels, transport, events,
                )?;
            }
            Wish::Close { again } => return Ok(again),
        }
    }
}
