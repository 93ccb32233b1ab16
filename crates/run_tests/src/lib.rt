//! Tests of lanes as they run and are replayed, with their texts.
#![tactic(auto)]

#[cfg(test)]
mod lane_run_tests;
#[cfg(test)]
mod replay_tests;
