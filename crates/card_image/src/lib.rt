//! Card images, which answer commands from lists, and the log of what was executed.
#![tactic(auto)]

mod answers;
mod apps;
mod image;
mod laws;
mod log;

pub use apps::{App, Rule};
pub use image::{Answered, CardImage};
pub use laws::stays_within_limits;
pub use log::{CardLog, Record};
