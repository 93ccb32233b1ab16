//! Tests of the texts that a run writes and reads: trace lines, the report, and what is said of faults.
#![tactic(auto)]

#[cfg(test)]
mod report_text_tests;
#[cfg(test)]
mod trace_io_tests;
