//! A transaction of Entry Point between two exchanges: what it asks, and how it goes on after what is heard (EMV Book B,
//! ISO/IEC 14443-4, with this project's profile).
#![tactic(auto)]

mod answering;
mod blank;
mod closing;
mod directory;
mod events;
mod hearing;
mod linking;
mod offers;
mod opening;
mod polling;
mod rolling;
mod running;
mod selecting;
mod steps;

pub use answering::respond;
pub use closing::MORE_ROUNDS;
pub use hearing::hear;
pub use opening::{begin, open};
pub use polling::meet;
pub use rolling::roll;
pub use steps::{LastLink, Onward, Phase, Presentation, Purpose, Rolling, Round, Selection, Wish};
