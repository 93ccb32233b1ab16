//! The reader's end of the block protocol (ISO/IEC 14443-4): what it asks for a command, and what each hearing leads
//! to, until the command has its response or the link has failed.
#![tactic(auto)]

mod asking;
mod breaches;
mod ends;
mod hearing;
mod keeping;
mod progress;
mod reader_end;
mod stages;
mod steps;
mod taking;
mod turns;

pub use ends::{Breach, Follows, Kept, LinkEnd, Next};
pub use ep_base::Phase;
pub use reader_end::ReaderEnd;
