//! The load generator: a scenario of many purchases, drawn from a seed.
#![tactic(auto)]

mod cards;
mod draws;
mod fates;
mod load;
mod memory;
mod responses;
mod scripts;
mod terms;

pub use load::{generate, plan};
