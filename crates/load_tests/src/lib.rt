//! Tests of generated loads: what they are, and what they come to.
#![tactic(auto)]

#[cfg(test)]
mod ep_load_tests;
#[cfg(test)]
mod load_run_tests;
