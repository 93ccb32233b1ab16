//! A checker of recorded traces: whether the exchanges of each lane are those of poll rounds and of links with cards, without
//! the commands, cards and scripts that made them.
#![tactic(auto)]

mod check;
mod lanes;
mod latest;
mod link;
mod parts;
mod round;
mod tally;
mod verdict;
mod watch;

pub use check::check_trace;
pub use ep_base::Wave;
pub use rf_frame::Heard;
pub use trace_io::{Shown, TraceLine};
pub use verdict::{Rule, Verdict};
