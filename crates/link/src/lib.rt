//! Transports: how a card is presented, answers commands, and is let go.
#![tactic(auto)]

mod carrying;
mod direct;
mod radio;
mod transport;

pub use block_reader::{Breach, LinkEnd, Phase};
pub use carrying::carry;
pub use direct::Direct;
pub use radio::RfTransport;
pub use transport::{PresentEnd, Presented, Transport};
