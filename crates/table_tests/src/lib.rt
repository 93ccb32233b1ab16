//! Tests of the tables of a document, each by itself: cards, fates, who is present, and the trace.
#![tactic(auto)]

#[cfg(test)]
mod card_table_tests;
#[cfg(test)]
mod fate_table_tests;
#[cfg(test)]
mod rows;
#[cfg(test)]
mod trace_table_tests;
