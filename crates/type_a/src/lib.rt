//! Type A of ISO/IEC 14443-3 outside the block protocol, both sides: a reader that selects a card and opens its block
//! protocol, and a card, each one frame at a time.
#![tactic(auto)]

mod ats;
mod card;
mod plan;
mod reader;

pub use ats::parse_ats;
pub use card::ACard;
pub use ep_base::{Ats, AtsFault};
pub use plan::APlan;
pub use reader::AReader;
pub use rf_frame::{
    Activated, Ask, Buf, CardHear, CardKind, FrameBuf, Heard, RoundEnd, Sent, Wave,
};
