//! Tests of several lanes that take turns, and the cards that they take.
#![tactic(auto)]

mod cards;
#[cfg(test)]
mod ep_lanes_tests;

pub use cards::{combination, field};
