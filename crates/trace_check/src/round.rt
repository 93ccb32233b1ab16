//! A poll round of a lane.
ghost use Rattle.std.specs.Prelude.{◌≡◌, ◌<◌, ◌≤◌};
ghost use Rattle.ep_base.specs.Cards.CardLimits.{EndsInLimits};
ghost use Rattle.ep_base.specs.Poll.Polling.{card_in};
ghost use Rattle.ep_base.specs.Poll.Round.{Waking, round_asks, round_hears};
ghost use Rattle.rf_frame.specs.Meaning.{heard_of, round_end_of};
ghost use Rattle.trace_check.specs.Watch.{after_end as watch_after, after_round};

use crate::link::Link;
use crate::watch::Watch;
use poll_activate::Poll;
use rf_frame::{Ask, Heard, RoundEnd};
use std::marker::Model;

/// A round that goes on.
#[derive(Drop)]
pub(crate) struct Round {
    fsdi: u8,
    poll: Poll,
}

impl Model for Round {
    ghost use Rattle.std.specs.Prelude.{◌≡◌, ◌<◌, IsSome};
    ghost use Rattle.trace_check.specs.Held.{RoundAt, stage_in};

    ghost Value = { RoundAt };

    ghost view = { λ r. record { fsdi = r.fsdi; stage = stage_in r.poll.stage } };

    ghost invariant = { λ r. (r.fsdi < 16) × (r.poll.fsdi ≡ r.fsdi) × IsSome r.poll.stage };
}

impl Round {
    /// A round of a reader with this FSDI, in which nothing was sent.
    pub(crate) fn open(fsdi: u8) -> Round
        requires { fsdi < 16 }
        ensures { result ≡ record { fsdi = fsdi; stage = Waking } }
    {
        Round {
            fsdi,
            poll: Poll::open(fsdi),
        }
    }

    /// What is asked next.
    pub(crate) fn ask(&self) -> Ask
        ensures { result ≡ round_asks self.now.fsdi self.now.stage }
    {
        self.poll.ask()
    }

    /// The lane after what was heard.
    pub(crate) fn hear(self, heard: &Heard) -> Watch
        ensures { result ≡ after_round self.fsdi (round_hears self.stage (heard_of heard.now)) }
    {
        let Round { fsdi, mut poll } = self;
        match poll.heard(heard) {
            Some(end) => after_end(&end, fsdi),
            None => Watch::InRound(Round { fsdi, poll }),
        }
    }
}

/// The lane after a round: a card opens its link.
fn after_end(end: &RoundEnd, fsdi: u8) -> Watch
    requires fsdi { fsdi < 16 }
    requires limits { EndsInLimits (round_end_of end.now) }
    ensures { result ≡ watch_after fsdi (card_in (round_end_of end.now)) }
{
    match end {
        RoundEnd::Card(card) => Watch::Resting(Link::to(card, fsdi), false),
        RoundEnd::Empty | RoundEnd::Collision | RoundEnd::Unsupported | RoundEnd::Broken =>
            Watch::Ready,
    }
}
