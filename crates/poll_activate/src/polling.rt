//! Poll rounds over a medium.
ghost use Rattle.std.specs.Prelude.{◌≡◌, ◌<◌, ◌↔◌, IsErr, IsErrOf, IfOk, IfSome};
ghost use Rattle.arrayvec.specs.ArrayVec.{array_vec_len};
ghost use Rattle.ep_base.specs.Cards.CardLimits.{AreLimits, EndsInLimits};
ghost use Rattle.ep_base.specs.Streams.Causes.{HasCause};
ghost use Rattle.ep_base.specs.Poll.Polling.{PlaysRound, PlaysRounds, card_in};
ghost use Rattle.rf_frame.specs.Meaning.{round_end_of};
ghost use Rattle.poll_activate.specs.Meaning.{ended, ends_of, polled_of, AreAllWithoutCard};

use crate::reader::Poll;
use arrayvec::ArrayVec;
use ep_base::ROUNDS;
use rf_frame::{Activated, Medium, RfFailed, RoundEnd, exchange};

/// The ends of at most 64 rounds.
pub type Rounds = ArrayVec<RoundEnd, ROUNDS>;

/// Why polling found no card.
#[derive(Clone, Copy, Debug, PartialEq, Eq)]
pub enum PollEnd {
    /// 64 rounds ended without a card.
    NoCard,
    /// The device failed.
    Device,
}

/// Makes one poll round over a medium, with a reader of this FSDI, below 16.
///
/// Errors: the medium failed; its count of faults has risen.
pub fn round<M: Medium>(medium: &mut M, fsdi: u8) -> Result<RoundEnd, RfFailed>
    requires { fsdi < 16 }
    ensures plays { PlaysRound M.steps fsdi (M.state medium.old) (ended result) (M.state medium.new) }
    ensures cause { HasCause (M.faults medium.old) (M.faults medium.new) (IsErr result) }
    ensures limits { IfOk result (λ e. EndsInLimits (round_end_of e)) }
{
    let mut poll = Poll::open(fsdi);
    'exchanges: loop {
        let heard = exchange(medium, &poll.ask())?;
        if let Some(end) = poll.heard(&heard) {
            return Ok(end);
        }
    }
}

/// The card with which a round ended, if one did.
fn card_of(end: &RoundEnd) -> Option<Activated>
    ensures { result ≡ card_in (round_end_of end.now) }
{
    match end {
        RoundEnd::Card(card) => Some(card.copy()),
        RoundEnd::Empty | RoundEnd::Collision | RoundEnd::Unsupported | RoundEnd::Broken => None,
    }
}

/// Makes poll rounds until one ends with a card, at most 64, and keeps their ends in order in `rounds`, which is empty
/// before.
///
/// Errors: `NoCard` where 64 rounds ended without a card, `Device` where the medium failed; its count of faults has then
/// risen, and the ends of the finished rounds stand.
pub fn poll<M: Medium>(medium: &mut M, fsdi: u8, rounds: &mut Rounds) -> Result<Activated, PollEnd>
    requires fsdi { fsdi < 16 }
    requires empty { array_vec_len rounds.old ≡ 0 }
    ensures plays { PlaysRounds M.steps fsdi ROUNDS (M.state medium.old) (ends_of rounds.new.items) (polled_of result) (M.state medium.new) }
    ensures none { IsErrOf result PollEnd.NoCard ↔ AreAllWithoutCard (ends_of rounds.new.items) }
    ensures cause { HasCause (M.faults medium.old) (M.faults medium.new) (IsErrOf result PollEnd.Device) }
    ensures limits { IfOk result (λ card. AreLimits card.fsc card.fwi) }
{
    'each: while rounds.len() < ROUNDS {
        let end = match round(medium, fsdi) {
            Ok(end) => end,
            Err(_) => return Err(PollEnd::Device),
        };
        let card = card_of(&end);
        rounds.push(end);
        if let Some(card) = card {
            return Ok(card);
        }
    }
    Err(PollEnd::NoCard)
}
