//! What a transaction's table says of the rounds and exchanges to come: which cards are present, and what becomes of
//! the frames (this project's own format).
#![tactic(auto)]

mod fates;
mod laws;
mod presence;
mod tokens;

pub use fates::fates_of;
pub use laws::one_reading;
pub use presence::presence_of;
