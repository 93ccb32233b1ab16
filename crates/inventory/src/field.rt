//! A field in which it is heard where the bits of several cards differ.
ghost use Rattle.std.specs.Prelude.{◌≡◌, ◌≤◌, ℕ, is_ok, IsErr};
ghost use Rattle.ep_base.specs.Streams.Causes.{HasCause};
ghost use Rattle.inventory.specs.Steps.{BitSteps, answer_of, one_more};

use rf_frame::RfFailed;

/// The first bits of a level's value, at most 32.
#[derive(Clone, Copy, Debug, PartialEq, Eq)]
pub struct Prefix {
    /// The bytes that they are the first bits of.
    pub bytes: [u8; 4],
    /// How many.
    pub bits: u8,
}

/// What is heard of the cards that were asked.
#[derive(Clone, Copy, Debug, PartialEq, Eq)]
pub enum BitHeard {
    /// No card answered.
    Silence,
    /// The cards answered alike: the four bytes of their level and BCC.
    Level([u8; 5]),
    /// The answers agree in their first bits and differ after them.
    Split {
        /// Bytes whose first `at` bits are those in which all agree.
        agreed: [u8; 4],
        /// The first place at which two of them differ, counted from 0.
        at: u8,
    },
}

/// A field of Type A cards that hears each bit of their answers.
pub trait BitField {
    /// What a state is.
    ghost State: { Type 0 };

    /// Its state.
    ghost state: { Self → State };

    /// The answers that it may give in a state, and the state after each.
    ghost steps: { BitSteps State };

    /// How many exchanges were made. This count stays once it is at the end of 64 bits.
    ghost exchanges: { Self → ℕ };

    /// How often it has failed. This count never falls.
    ghost faults: { Self → ℕ };

    /// Resets the field: no card answers until `wake`. This is no exchange.
    fn reset(&mut self) -> Result<(), RfFailed>
        ensures step { steps.resets (state self.old) (is_ok result) (state self.new) }
        ensures count { exchanges self.new ≡ exchanges self.old }
        ensures cause { HasCause (faults self.old) (faults self.new) (IsErr result) };

    /// Puts all cards at level 1, and says whether one answered.
    fn wake(&mut self) -> Result<bool, RfFailed>
        ensures step { steps.wakes (state self.old) (answer_of result) (state self.new) }
        ensures count { exchanges self.new ≡ one_more (exchanges self.old) }
        ensures cause { HasCause (faults self.old) (faults self.new) (IsErr result) };

    /// Asks the cards at this level whose value begins with these bits, at most 32.
    fn ask(&mut self, level: u8, known: &Prefix) -> Result<BitHeard, RfFailed>
        requires { known.now.bits ≤ 32 }
        ensures step { steps.asks (state self.old) level known.now (answer_of result) (state self.new) }
        ensures count { exchanges self.new ≡ one_more (exchanges self.old) }
        ensures cause { HasCause (faults self.old) (faults self.new) (IsErr result) };

    /// Moves the cards at this level that have this value on, and gives their SAK, which has bit 04h where the UID isn't
    /// complete, or `None` where no card has the value. The other cards at this level are mute until the next `wake`.
    fn select(&mut self, level: u8, value: &[u8; 4]) -> Result<Option<u8>, RfFailed>
        ensures step { steps.selects (state self.old) level value.now (answer_of result) (state self.new) }
        ensures count { exchanges self.new ≡ one_more (exchanges self.old) }
        ensures cause { HasCause (faults self.old) (faults self.new) (IsErr result) };
}
