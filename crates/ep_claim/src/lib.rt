//! The definitions of the claim: transactions exchange by exchange, lanes that take turns, what is written, and what is promised of it.
#![tactic(auto)]
