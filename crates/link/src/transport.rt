//! Transports.
ghost use Rattle.std.specs.Prelude.{◌≡◌, ℕ, Bool, true, false, is_ok, IsErr, IsErrOf};
ghost use Rattle.ep_base.specs.Streams.Causes.{HasCause};
ghost use Rattle.ep_base.specs.Poll.Transport.{TransportSteps};

use crate::LinkEnd;
use apdu::{Command, Response};
use rf_frame::{Activated, RfFailed};

/// A card that came.
#[derive(Debug, PartialEq, Eq, Drop)]
pub struct Presented {
    /// The card.
    pub card: Activated,
    /// Whether a poll round before it ended as a collision.
    pub collision: bool,
}

/// Why no card came.
#[derive(Clone, Copy, Debug, PartialEq, Eq)]
pub enum PresentEnd {
    /// The last poll round went by without a card.
    NoCard {
        /// Whether a poll round ended as a collision.
        collision: bool,
    },
    /// The device failed.
    Device,
}

/// What presents a card to a reader and carries its commands. It means a state and which answers each call may give in
/// it. A transport that tells itself has one answer to each call; one that tells nothing has one state and every
/// answer.
pub trait Transport {
    ghost use Rattle.link.specs.Answers.{presentation_of, reply_of};

    /// What a state is.
    ghost State: { Type 0 };

    /// Its state.
    ghost state: { Self → State };

    /// The answers that it may give in a state, and the state after each.
    ghost steps: { TransportSteps State };

    /// Whether a card is presented over a link that hasn't failed.
    ghost presented: { Self → Bool };

    /// How often a device has failed. This count never falls.
    ghost faults: { Self → ℕ };

    /// Waits for a card.
    ///
    /// Errors: `NoCard` where none came, `Device` only where the count of faults rose.
    fn present(&mut self) -> Result<Presented, PresentEnd>
        ensures step { steps.presents (state self.old) (presentation_of result) (state self.new) }
        ensures presented { presented self.new ≡ is_ok result }
        ensures cause { HasCause (faults self.old) (faults self.new) (IsErrOf result PresentEnd.Device) };

    /// Sends a command to the card that is presented, and gives its response.
    ///
    /// Errors: `Spent` and `Breach` where the link failed, `Device` only where the count of faults rose.
    fn transact(&mut self, command: &Command) -> Result<Response, LinkEnd>
        requires { presented self.old ≡ true }
        ensures step { steps.transacts (state self.old) command.now (reply_of result) (state self.new) }
        ensures presented { presented self.new ≡ is_ok result }
        ensures cause { HasCause (faults self.old) (faults self.new) (IsErrOf result LinkEnd.Device) };

    /// Lets the card go.
    ///
    /// Errors: `RfFailed` only where the count of faults rose.
    fn close(&mut self) -> Result<(), RfFailed>
        requires { presented self.old ≡ true }
        ensures step { steps.closes (state self.old) (is_ok result) (state self.new) }
        ensures presented { presented self.new ≡ false }
        ensures cause { HasCause (faults self.old) (faults self.new) (IsErr result) };
}
