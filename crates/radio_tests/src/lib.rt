//! Tests of whole purchases: a session over the perfect channel, and over the radio, with a field of cards and fates of their
//! frames.
#![tactic(auto)]

#[cfg(test)]
mod entry_session_tests;
#[cfg(test)]
mod purchase;
#[cfg(test)]
mod tests;
#[cfg(test)]
mod turns;
