//! Tests of the block protocol: blocks as bytes, and each end of a link alone.
#![tactic(auto)]

#[cfg(test)]
mod card_end;
#[cfg(test)]
mod reader_end;
#[cfg(test)]
mod spellings;
