//! Tests of cards: activation of both types, and what an image answers.
#![tactic(auto)]

#[cfg(test)]
mod cards_a;
#[cfg(test)]
mod cards_b;
#[cfg(test)]
mod image;
