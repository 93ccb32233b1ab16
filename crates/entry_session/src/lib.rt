//! A transaction of Entry Point from Start A to its end, over any transport, any kernels and any taker of events
//! (EMV Book B, with this project's profile).
#![tactic(auto)]

mod direct;
mod driving;
mod hearing;
mod holding;
mod ran;
mod rounds;
mod session;
mod starting;
mod steps;
mod turn;
mod whole;

pub use block_reader::Kept;
pub use holding::Session;
pub use kernel_port::{End, Event, EventList, Events, EventsFailed};
pub use ran::Ran;
pub use rf_frame::{Ask, Heard, RoundEnd};
pub use turn::Turn;
