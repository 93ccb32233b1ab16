//! Type B of ISO/IEC 14443-3 outside the block protocol, both sides: a reader that opens a card's block protocol, and a
//! card, each one frame at a time.
#![tactic(auto)]

mod card;
mod messages;
mod reader;

pub use card::{BCard, BPlan};
pub use ep_base::{Atqb, AtqbFault};
pub use messages::parse_atqb;
pub use reader::BReader;
pub use rf_frame::{
    Activated, Ask, Buf, CardHear, CardKind, FrameBuf, Heard, RoundEnd, Sent, Wave,
};
