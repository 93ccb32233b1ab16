//! Start A, Pre-Processing: what holds of each Combination for one purchase (EMV Book B).
#![tactic(auto)]

mod indicators;
mod prepared;
mod processing;

pub use indicators::Indicators;
pub use prepared::{Prepared, PreparedOne};
pub use processing::prepare;
