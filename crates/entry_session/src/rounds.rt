//! A Start B over a transport, which tells of its rounds only whether one of them collided and which card came.
ghost use Rattle.std.specs.Prelude.{◌≡◌, [], true, IfOk, IfErr, OnOk, IsErrOf};
ghost use Rattle.ep_base.specs.Air.Heard.{Activated as ActivatedData};
ghost use Rattle.ep_rules.specs.EntryPoint.Talk.{Talk};
ghost use Rattle.ep_rules.specs.EntryPoint.Transaction.{start_b};
ghost use Rattle.ep_rules.specs.EntryPoint.TransportRun.{Runs, Onward};
ghost use Rattle.link.specs.Answers.{presentation_of};
ghost use Rattle.rf_frame.specs.Meaning.{round_end_of};
ghost use Rattle.entry_session.specs.Causes.{Caused};
ghost use Rattle.entry_session.specs.Meaning.{left_of};
ghost use Rattle.entry_session.specs.Pending.{end_shown, shows};

use crate::driving::say_each;
use crate::ran::Ran;
use kernel_port::{EventList, Events};
use link::{PresentEnd, Presented, Transport};
use rf_frame::{Activated, RoundEnd};
use session_phases::{MORE_ROUNDS, Rolling, roll};

/// The ends of rounds for which a presentation stands, as far as no round has ended so yet.
#[derive(Drop)]
pub(crate) struct Pending {
    /// Whether a collision comes first.
    collision: bool,
    /// The card with which a round ends then. Without one, all rounds are empty.
    card: Option<Activated>,
}

/// The ends for which a presentation stands, unless its device failed.
fn pending_of(presented: Result<Presented, PresentEnd>) -> Option<Pending>
    ensures { shows result ≡ presentation_of presented }
{
    match presented {
        Ok(presented) => Some(Pending {
            collision: presented.collision,
            card: Some(presented.card),
        }),
        Err(PresentEnd::NoCard { collision }) => Some(Pending {
            collision,
            card: None,
        }),
        Err(PresentEnd::Device) => None,
    }
}

impl Pending {
    /// The end of the next round.
    fn end(&self) -> RoundEnd
        ensures { round_end_of result ≡ end_shown self.now.collision self.now.card }
    {
        if self.collision {
            return RoundEnd::Collision;
        }
        match &self.card {
            Some(card) => RoundEnd::Card(card.copy()),
            None => RoundEnd::Empty,
        }
    }
}

/// A Start B: what is decided after each end of a round for which the presentation stands.
pub(crate) fn start_b<T: Transport, E: Events>(
    transport: &mut T,
    events: &mut E,
) -> Result<Activated, Ran>
    ensures goes { IfOk result (λ card. (next : ActivatedData → Talk) → Onward T.steps E.steps
        (start_b next) (T.state transport.old) (E.state events.old)
        (next card) (T.state transport.new) (E.state events.new)) }
    ensures stops { IfErr result (λ r. (next : ActivatedData → Talk) → Runs T.steps E.steps
        (start_b next) [] (T.state transport.old) (E.state events.old)
        (left_of r (T.state transport.new) (E.state events.new))) }
    ensures presented { OnOk result (T.presented transport.new ≡ true) }
    ensures cause { Caused (T.faults transport.old) (T.faults transport.new) (E.faults events.old) (E.faults events.new)
        (IsErrOf result Ran.Device) (IsErrOf result Ran.EventsFailed) }
    ensures same_reference { E.anchor events.new ≡ E.anchor events.old }
{
    let Some(mut pending) = pending_of(transport.present()) else {
        return Err(Ran::Device);
    };
    let mut left = MORE_ROUNDS;
    let mut collided = false;
    'rounds: loop {
        let end = pending.end();
        let mut list = EventList::new();
        let rolling = roll(&end, left, collided, &mut list);
        say_each(list.as_slice(), events)?;
        match rolling {
            Rolling::Round {
                left: more,
                collided: told,
            } => {
                pending.collision = false;
                left = more;
                collided = told;
            }
            Rolling::Card(card) => return Ok(card.copy()),
            Rolling::Ended(end) => return Err(Ran::Ended(end)),
        }
    }
}
