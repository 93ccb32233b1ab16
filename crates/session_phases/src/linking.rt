//! What is wished of a card, over the open link to it.
ghost use Rattle.std.specs.Prelude.{◌≡◌, ℕ, ◌+◌, ◌<◌, ◌≤◌, List, [], ◌∷◌, ◌++◌, true, Some};
ghost use Rattle.arrayvec.specs.ArrayVec.{array_vec_len};
ghost use Rattle.block_reader.specs.Stands.{held, is_open, is_resting, Rests, Asking};
ghost use Rattle.ep_base.specs.Link.Carry.{turn_on};
ghost use Rattle.ep_base.specs.Link.LinkEvents.{kept_after, exchange_of};
ghost use Rattle.ep_base.specs.Link.ReaderEnd.{Reader};
ghost use Rattle.ep_rules.specs.EntryPoint.Event.{Event as EventData};
ghost use Rattle.ep_rules.specs.EntryPoint.Talk.{Talk, Result};
ghost use Rattle.ep_claim.specs.Lanes.Standing.{after_turn, asked_by, doing_by};
ghost use Rattle.rf_frame.specs.Meaning.{heard_of};
ghost use Rattle.session_phases.specs.declared.steps.Round.{Round};
ghost use Rattle.session_phases.specs.Plain.{onward_of, purpose_of, wish_of};
ghost use Rattle.session_phases.specs.Room.{HasRoom};
ghost use Rattle.session_phases.specs.Shown.{FailsThen, NoRoundThen};
ghost use Rattle.session_phases.specs.Stands.{Does, Turned, carries, goes_on, link_held};
ghost use Rattle.session_phases.specs.Told.{told_by};
ghost use Rattle.session_phases.specs.Wishes.{Serves, serves, wished};

use crate::answering::respond;
use crate::events::note;
use crate::steps::{Onward, Phase, Purpose, Selection, Wish};
use block_reader::{Follows, ReaderEnd};
use kernel_port::{End, Event, EventList, Kernels};
use pre_processing::Prepared;
use rf_frame::{Ask, Heard};
use tlv_arena::Arena;

/// Begins what is wished, over a link on which no command is open, and says what is asked first.
pub(crate) fn begin_wish(wish: Wish, selection: &Selection, end: &mut ReaderEnd, ask: &mut Ask)
    requires { is_resting (held end.old) ≡ true }
    ensures does { (reader : Reader) → Rests (held end.old) reader
        → Does (Some (held end.new)) (wish_of wish selection.now) (doing_by (wished (wish_of wish selection.now)) (Some (record { set = (held end.old).set; reader = reader }))) }
    ensures asks { (fsdi : ℕ) (reader : Reader) → Rests (held end.old) reader
        → asked_by fsdi (doing_by (wished (wish_of wish selection.now)) (Some (record { set = (held end.old).set; reader = reader }))) ≡ Some ask.new }
    ensures opened { carries (Some (held end.new)) (wish_of wish selection.now) ≡ true }
    ensures kept { (reader : Reader) → Rests (held end.old) reader → (held end.new).since ≡ [] }
{
    match wish {
        Wish::Command(_) => end.begin_into(&selection.command, ask),
        Wish::Close { .. } => end.deselect_into(ask),
    }
}

/// After what was heard over a link on which a command is open: the next block, what is wished after the response, or
/// the end of a transaction whose link has failed.
pub(crate) fn hear_command<K: Kernels>(
    purpose: Purpose,
    selection: &mut Selection,
    prepared: &Prepared,
    kernels: &mut K,
    arena: &mut Arena,
    end: &mut ReaderEnd,
    heard: &Heard,
    events: &mut EventList,
    ask: &mut Ask,
) -> Onward
    requires events { array_vec_len events.old + 6 ≤ 24 }
    requires room { HasRoom arena.old.contents }
    requires opened { is_open (held end.old) ≡ true }
    requires kernels { serves (K.is_open kernels.old) (K.is_fresh kernels.old) (purpose_of purpose selection.old) ≡ true }
    ensures turned { (fsdi : ℕ) (talk : Talk) (results : List Result) (before : List EventData) (reader : Reader) (round : Round) → Asking (held end.old) reader
        → Serves K.steps prepared.now.list (K.state kernels.old) arena.old.objects talk results (before ++ told_by events.old.items) selection.old.command (purpose_of purpose selection.old)
        → Turned K.steps prepared.now.list (K.state kernels.new) arena.new.objects fsdi (Some (held end.new)) (onward_of result ask.new round selection.new) talk
        (after_turn talk results (held end.old).set (turn_on (held end.old).set reader (heard_of heard.now))) (before ++ told_by events.new.items) }
    ensures goes_on { (round : Round) → goes_on (K.is_open kernels.new) (K.is_fresh kernels.new) (Some (held end.new)) (onward_of result ask.new round selection.new) ≡ true }
    ensures room { HasRoom arena.new.contents }
    ensures no_round { (round : Round) → NoRoundThen (onward_of result ask.new round selection.new) }
    ensures fails { (reader : Reader) (round : Round) → Asking (held end.old) reader
        → FailsThen (onward_of result ask.new round selection.new) (heard_of heard.now) (record { set = (held end.old).set; reader = reader }) (held end.new) }
    ensures kept { (reader : Reader) → Asking (held end.old) reader
        → (held end.new).since ≡ kept_after (held end.old).since reader (turn_on (held end.old).set reader (heard_of heard.now)) (exchange_of (held end.old).set reader (heard_of heard.now)) }
{
    match end.hear_into(heard, ask) {
        Follows::Ask => Onward::Goes(Phase::Waiting(Wish::Command(purpose))),
        Follows::Done => {
            end.put_response(&mut selection.response);
            let wish = respond(purpose, selection, prepared, arena, kernels, events);
            begin_wish(wish, selection, end, ask);
            Onward::Goes(Phase::Waiting(wish))
        }
        Follows::Spent => {
            note(events, Event::End(End::Link));
            Onward::Ended(End::Link)
        }
        Follows::Breach(_) => {
            note(events, Event::End(End::Breach));
            Onward::Ended(End::Breach)
        }
    }
}
