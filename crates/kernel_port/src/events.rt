//! Takers of events.
ghost use Rattle.std.specs.Prelude.{◌≡◌, ℕ, OnOk, OnErr, IsErr};
ghost use Rattle.ep_base.specs.Streams.Causes.{HasCause};
ghost use Rattle.ep_rules.specs.EntryPoint.EventSteps.{EventSteps};

use crate::Event;

/// An event wasn't taken whole.
#[derive(Clone, Copy, Debug, PartialEq, Eq)]
pub struct EventsFailed;

/// What takes the events of a transaction. It means a state, the state after each event, and the states that a failure
/// may leave.
pub trait Events {
    ghost use Rattle.kernel_port.specs.Event.{said_of};

    /// What a state is.
    ghost State: { Type 0 };

    /// Its state.
    ghost state: { Self → State };

    /// The state after an event, and those that a failure may leave.
    ghost steps: { EventSteps State };

    /// How often it has failed. This count never falls.
    ghost faults: { Self → ℕ };

    /// The name of the reference that it holds, if it holds one. It stays the same.
    ghost anchor: { Self → ℕ };

    /// Takes an event.
    ///
    /// Errors: `EventsFailed` only where the count of faults rose; the state is one that such a failure may leave.
    fn take(&mut self, event: &Event) -> Result<(), EventsFailed>
        ensures taken { OnOk result (state self.new ≡ steps.take (state self.old) (said_of event.now)) }
        ensures cut { OnErr result (steps.cut (state self.old) (said_of event.now) (state self.new)) }
        ensures cause { HasCause (faults self.old) (faults self.new) (IsErr result) }
        ensures same_reference { anchor self.new ≡ anchor self.old };
}
