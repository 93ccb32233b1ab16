//! Tests of sources and sinks, of blocks of bytes, of frames, and of commands and responses.
#![tactic(auto)]

#[cfg(test)]
mod commands;
#[cfg(test)]
mod frames;
#[cfg(test)]
mod raw_bytes;
#[cfg(test)]
mod streams;
