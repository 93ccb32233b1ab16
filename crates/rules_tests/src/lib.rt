//! Tests of what Entry Point decides before and beside a card: Pre-Processing, Combination Selection and kernels.
#![tactic(auto)]

#[cfg(test)]
mod kernel_event_tests;
#[cfg(test)]
mod kernel_port_tests;
#[cfg(test)]
mod pre_processing_tests;
#[cfg(test)]
mod select_rules_tests;
