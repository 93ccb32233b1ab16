//! The blocks of the half-duplex protocol as bytes (ISO/IEC 14443-4), without CID and NAD.
#![tactic(auto)]

mod blocks;
mod laws;
mod reading;
mod writing;

pub use blocks::Block;
pub use ep_base::BlockFault;
pub use laws::{read_is_spelled, spelled_is_read};
pub use reading::decode;
pub use writing::encode;
