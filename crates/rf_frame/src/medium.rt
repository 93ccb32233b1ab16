//! The medium between a reader and its cards.
ghost use Rattle.std.specs.Prelude.{ℕ, is_ok, IsErr};
ghost use Rattle.ep_base.specs.Streams.Causes.{HasCause};
ghost use Rattle.ep_base.specs.Air.Medium.{MediumSteps, Exchanges};
ghost use Rattle.rf_frame.specs.Meaning.{maybe_heard, heard_into};

use crate::{Ask, Heard};
use ep_base::{FrameBuf, Wave};

/// The device failed.
#[derive(Clone, Copy, Debug, PartialEq, Eq)]
pub struct RfFailed;

/// What carries a reader's frames to cards, and their answers back. It means a state and which answers each call may
/// give in it. A medium that tells itself has one answer to each call, also where a call fails; one that tells nothing
/// has one state and every answer.
pub trait Medium {
    /// What a state is.
    ghost State: { Type 0 };

    /// Its state.
    ghost state: { Self → State };

    /// The answers that it may give in a state, and the state after each.
    ghost steps: { MediumSteps State };

    /// How often it has failed. This count never falls.
    ghost faults: { Self → ℕ };

    /// Resets the field: the next poll round begins.
    fn reset(&mut self) -> Result<(), RfFailed>
        ensures step { steps.resets (state self.old) (is_ok result) (state self.new) }
        ensures cause { HasCause (faults self.old) (faults self.new) (IsErr result) };

    /// Sends a frame, its check bytes among its bytes, with its waiting number, and gives what is heard.
    fn send(&mut self, wave: Wave, frame: &FrameBuf, wait: u32) -> Result<Heard, RfFailed>
        ensures step { steps.sends (state self.old) wave frame.now.items wait (maybe_heard result) (state self.new) }
        ensures cause { HasCause (faults self.old) (faults self.new) (IsErr result) };

    /// Sends a frame as `send` does, and writes what is heard in place of what stood there.
    fn send_into(
        &mut self,
        wave: Wave,
        frame: &FrameBuf,
        wait: u32,
        heard: &mut Heard,
    ) -> Result<(), RfFailed>
        ensures step { steps.sends (state self.old) wave frame.now.items wait (heard_into result heard.new) (state self.new) }
        ensures cause { HasCause (faults self.old) (faults self.new) (IsErr result) }
    {
        *heard = self.send(wave, frame, wait)?;
        Ok(())
    }
}

/// Makes one exchange: resets the field where that is asked, and sends the frame.
pub fn exchange<M: Medium>(medium: &mut M, ask: &Ask) -> Result<Heard, RfFailed>
    ensures step { Exchanges M.steps (M.state medium.old) ask.now (maybe_heard result) (M.state medium.new) }
    ensures cause { HasCause (M.faults medium.old) (M.faults medium.new) (IsErr result) }
{
    let mut heard = Heard::Silence;
    exchange_into(medium, ask, &mut heard)?;
    Ok(heard)
}

/// Makes one exchange as `exchange` does, and writes what is heard in place of what stood there.
pub fn exchange_into<M: Medium>(
    medium: &mut M,
    ask: &Ask,
    heard: &mut Heard,
) -> Result<(), RfFailed>
    ensures step { Exchanges M.steps (M.state medium.old) ask.now (heard_into result heard.new) (M.state medium.new) }
    ensures cause { HasCause (M.faults medium.old) (M.faults medium.new) (IsErr result) }
{
    if ask.reset {
        medium.reset()?;
    }
    medium.send_into(ask.wave, &ask.frame, ask.wait, heard)
}
