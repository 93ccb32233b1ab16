//! Poll rounds of the EMV contactless level 1 procedure: one round, one frame at a time; one round over a medium; and
//! rounds until a card comes.
#![tactic(auto)]

mod polling;
mod reader;

pub use polling::{PollEnd, Rounds, poll, round};
pub use reader::Poll;
pub use rf_frame::{Activated, Ask, Heard, Medium, RfFailed, RoundEnd, Wave};
