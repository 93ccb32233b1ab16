//! Probes: what may alter the hearings of a reader.
ghost use Rattle.std.specs.Prelude.{ℕ};
ghost use Rattle.rf_frame.specs.Meaning.{heard_of};
ghost use Rattle.ep_claim.specs.Lanes.Probing.{ProbeAnswers};

use rf_frame::{Ask, Heard};

/// What stands between a medium and the readers of all lanes. It means a state, and what a reader may hear in each one. A
/// probe that tells itself has one answer to each hearing; one that tells nothing has one state and every answer.
pub trait Probe {
    /// What a state is.
    ghost State: { Type 0 };

    /// Its state.
    ghost state: { Self → State };

    /// What it may make of a hearing in a state, and the state after it.
    ghost steps: { ProbeAnswers State };

    /// Takes what the medium gave in an exchange in which this lane asked so, and says what the reader hears.
    fn hear(&mut self, lane: u8, ask: &Ask, heard: &Heard) -> Heard
        ensures { steps.hears (state self.old) lane ask.now (heard_of heard.now) (heard_of result) (state self.new) };
}

/// The probe that gives on what it gets.
#[derive(Clone, Copy, Debug, PartialEq, Eq)]
pub struct Open;

impl Probe for Open {
    ghost use Rattle.ep_claim.specs.Lanes.Probing.{probe_told};
    ghost use Rattle.ep_claim.specs.Lanes.WholeRun.{open_probe};

    ghost State = { Unit {0} };

    ghost state = { λ _. tt };

    ghost steps = { probe_told open_probe };

    /// Gives on what the medium gave.
    fn hear(&mut self, _lane: u8, _ask: &Ask, heard: &Heard) -> Heard {
        heard.copy()
    }
}
