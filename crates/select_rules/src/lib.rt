//! Combination Selection of Entry Point: which pairs of a directory entry and a Combination are candidates, in which
//! order they are tried, and the final SELECT of each (EMV Book B, with this project's profile).
#![tactic(auto)]

mod candidates;
mod entry;
mod offer;
mod pair;

pub use candidates::Candidates;
pub use pair::Pair;
