//! The inventory of a field of Type A cards: every card, by asking for the bits in which their UIDs differ (ISO/IEC
//! 14443-3, bit frame anticollision). A level's value is its four bytes, and its bits are in sending order, the lowest bit
//! of each byte first.
#![tactic(auto)]

mod bits;
mod clean;
mod field;
mod listing;
mod tag;
mod walk;

pub use clean::CleanField;
pub use ep_base::{Buf, NoMemory};
pub use field::{BitField, BitHeard, Prefix};
pub use listing::{InventoryEnd, inventory};
pub use rf_frame::RfFailed;
pub use tag::Tag;
