//! The trace in a document: what its root's table says of an earlier run (this project's own format).
#![tactic(auto)]

mod trace;

pub use trace::trace_of;
