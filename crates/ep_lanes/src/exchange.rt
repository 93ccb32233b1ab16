//! What a turn made, and what it led to.

use entry_session::End;
use ep_base::{FrameBuf, Wave};
use rf_frame::{Ask, Heard};

/// What follows in a lane.
#[derive(Clone, Copy, Debug, PartialEq, Eq)]
pub enum Turned {
    /// Its transaction asks for another exchange.
    Goes,
    /// Its transaction ended so.
    Ended(End),
}

/// An exchange of a lane.
#[derive(Drop)]
pub struct Exchange {
    /// The lane's number, from 1.
    pub lane: u8,
    /// What was asked.
    pub ask: Ask,
    /// What the reader heard: what the probe gave on.
    pub heard: Heard,
}

/// What is asked by no one.
pub(crate) fn nothing() -> Ask {
    Ask {
        reset: false,
        wave: Wave::A,
        frame: FrameBuf::new(),
        wait: 0,
    }
}

impl Exchange {
    /// One that wasn't made.
    pub(crate) fn none() -> Exchange {
        Exchange {
            lane: 0,
            ask: nothing(),
            heard: Heard::Silence,
        }
    }
}
