//! What a Start B decides after each of its rounds.
ghost use Rattle.std.specs.Prelude.{◌≡◌, ◌+◌, ◌<◌, ◌≤◌, List, ◌++◌, true};
ghost use Rattle.arrayvec.specs.ArrayVec.{array_vec_len};
ghost use Rattle.ep_base.specs.Air.Heard.{Activated as ActivatedData, RoundEnd as EndData};
ghost use Rattle.ep_base.specs.declared.outcome.Message.TheVariants.{OneCardOnly};
ghost use Rattle.ep_rules.specs.EntryPoint.Event.{Event as EventData};
ghost use Rattle.ep_rules.specs.EntryPoint.Talk.{Talk, Result, by_end, rounds, say_collision};
ghost use Rattle.rf_frame.specs.Meaning.{round_end_of};
ghost use Rattle.session_phases.specs.Causes.{FindsNone};
ghost use Rattle.session_phases.specs.Rolling.{RollsBy, RollsFrom, RollsOn};
ghost use Rattle.session_phases.specs.Told.{Comes, told_by};

use crate::events::note;
use crate::steps::Rolling;
use kernel_port::{End, Event, EventList, Message};
use rf_frame::RoundEnd;

/// The next round of a Start B, or its end after the last one.
fn next_round(left: u8, collided: bool, events: &mut EventList) -> Rolling<'static>
    requires { array_vec_len events.old < 24 }
    ensures rolls { (talk : Talk) (results : List Result) (before : List EventData) (next : ActivatedData → Talk)
        → Comes talk results (before ++ told_by events.old.items) (rounds OneCardOnly left collided next)
        → RollsOn result talk results (before ++ told_by events.new.items) next }
    ensures by { (end : EndData) → FindsNone end → RollsBy result end }
    ensures left { RollsFrom result left }
    ensures count { array_vec_len events.new ≤ array_vec_len events.old + 1 }
{
    if left == 0 {
        note(events, Event::End(End::NoCard));
        return Rolling::Ended(End::NoCard);
    }
    Rolling::Round {
        left: left - 1,
        collided,
    }
}

/// After a round that ended as a collision, of which the first is said in a Start B.
fn collide(left: u8, collided: bool, events: &mut EventList) -> Rolling<'static>
    requires { array_vec_len events.old + 2 ≤ 24 }
    ensures rolls { (talk : Talk) (results : List Result) (before : List EventData) (next : ActivatedData → Talk)
        → Comes talk results (before ++ told_by events.old.items) (say_collision collided OneCardOnly (rounds OneCardOnly left true next))
        → RollsOn result talk results (before ++ told_by events.new.items) next }
    ensures by { (end : EndData) → FindsNone end → RollsBy result end }
    ensures left { RollsFrom result left }
    ensures count { array_vec_len events.new ≤ array_vec_len events.old + 2 }
{
    if !collided {
        note(events, Event::Message(Message::OneCardOnly));
    }
    next_round(left, true, events)
}

/// Decides how a Start B goes on after the end of a round, of which `left` may still come: with another round, with the
/// card that was found, or not at all. The first collision and the end of the transaction are noted. The session that is
/// taken up at each exchange asks it after a round, and the one over a transport for what was presented.
pub fn roll<'c>(end: &'c RoundEnd, left: u8, collided: bool, events: &mut EventList) -> Rolling<'c>
    requires { array_vec_len events.old + 2 ≤ 24 }
    ensures rolls { (talk : Talk) (results : List Result) (before : List EventData) (next : ActivatedData → Talk)
        → Comes talk results (before ++ told_by events.old.items) (by_end OneCardOnly collided (λ c. rounds OneCardOnly left c next) next (round_end_of end.now))
        → RollsOn result talk results (before ++ told_by events.new.items) next }
    ensures by { RollsBy result (round_end_of end.now) }
    ensures left { RollsFrom result left }
    ensures count { array_vec_len events.new ≤ array_vec_len events.old + 2 }
{
    match end {
        RoundEnd::Empty => next_round(left, collided, events),
        RoundEnd::Collision => collide(left, collided, events),
        RoundEnd::Unsupported => next_round(left, collided, events),
        RoundEnd::Broken => next_round(left, collided, events),
        RoundEnd::Card(card) => Rolling::Card(card),
    }
}
