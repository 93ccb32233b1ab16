//! Kernels, by what they are given and what they answer, those that follow scripts, and the events of a transaction with what takes
//! them.
#![tactic(auto)]

mod activation;
mod event;
mod events;
mod kernels;
mod outcome;
mod scripts;

pub use activation::Activation;
pub use ep_base::{Message, OutcomeKind};
pub use event::{End, Event, EventList};
pub use events::{Events, EventsFailed};
pub use kernels::{KernelStep, Kernels};
pub use outcome::Outcome;
pub use scripts::{Script, Scripts, Step};
