//! Tests of data objects: walks over bytes, the arena, and the directory.
#![tactic(auto)]

#[cfg(test)]
mod arena;
#[cfg(test)]
mod directory;
#[cfg(test)]
mod walks;
