//! Tests of documents: each fault that a key of a table can have, and the values at its limits.
#![tactic(auto)]

#[cfg(test)]
mod tests;
