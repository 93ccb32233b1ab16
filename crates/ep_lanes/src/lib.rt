//! Several lanes, each with a session: one exchange of one lane per turn, and a probe that may alter what a reader hears
//! (this project's own).
#![tactic(auto)]

mod exchange;
mod holding;
mod lane;
mod lanes;
mod order;
mod probe;

pub use entry_session::{End, EventList};
pub use exchange::{Exchange, Turned};
pub use holding::Lanes;
pub use probe::{Open, Probe};
pub use rf_frame::{Ask, Heard, Medium, RfFailed};
