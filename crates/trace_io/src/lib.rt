//! Trace lines, written and read, and the trace of an earlier run as a medium: each exchange of a run has one line (this
//! project's own format).
#![tactic(auto)]

mod fields;
mod laws;
mod line;
mod mismatch;
mod pieces;
mod reading;
mod replay;

pub use laws::{fails_for_good, failure_is_held, one_reading, written_is_read};
pub use line::{Shown, TraceLine, trace_line};
pub use mismatch::{Mismatch, mismatch_text};
pub use pieces::{push_hex, push_number};
pub use reading::read_trace_line;
pub use replay::Replay;
