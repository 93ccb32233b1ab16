//! The card's end of a link (ISO/IEC 14443-4): what a card does with the blocks that it hears, and how its responses
//! go out in parts.
#![tactic(auto)]

mod card_end;
mod held;
mod parts;
mod rules;

pub use apdu::{Command, Response};
pub use ep_base::{CardKind, FrameBuf};
pub use held::{CardEnd, CardNext, Step};
