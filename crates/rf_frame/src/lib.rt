//! Frames of ISO/IEC 14443-3 as they go through the air: their check bytes, bursts that damage them, what is asked
//! and heard, and the medium through which a reader and its cards speak.
#![tactic(auto)]

mod air;
mod bursts;
mod cards;
mod checks;
mod frames;
mod laws;
mod medium;
mod messages;
mod table;

pub use air::{Ask, Heard, Sent};
pub use bursts::{Burst, burst_seen, flip};
pub use cards::{Activated, CardDoes, CardHear, RoundEnd};
pub use checks::check;
pub use ep_base::{Buf, CardKind, FrameBuf, Wave};
pub use frames::{copy_frame, good, open_frame, refill, seal};
pub use laws::{damage_is_seen, hits_where_it_falls, missed_is_same, sealed_is_opened};
pub use medium::{Medium, RfFailed, exchange, exchange_into};
pub use messages::{answer_in, ask_message, put_ask, put_message, put_sent, sent_message};
