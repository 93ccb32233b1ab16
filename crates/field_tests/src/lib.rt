//! Tests of poll rounds, of a card under fates, and of several cards in a field.
#![tactic(auto)]

#[cfg(test)]
mod field;
#[cfg(test)]
mod polling;
#[cfg(test)]
mod wire;
