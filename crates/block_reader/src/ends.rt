//! What a reader's end says and keeps, and how a link fails.

use apdu::Response;
use ep_base::{FrameBuf, Phase};
use rf_frame::{Ask, Heard};
use std::marker::Model;

/// A block outside the rules.
#[derive(Debug, PartialEq, Eq, Drop)]
pub struct Breach {
    /// The frame that was heard, with its check bytes.
    pub frame: FrameBuf,
    /// The reader's block number, 0 or 1.
    pub number: u8,
    /// What the reader was doing.
    pub phase: Phase,
    /// How many S(WTX) were accepted since the block number's last toggle.
    pub wtx: u8,
}

impl Model for Breach {
    ghost use Rattle.ep_base.specs.Link.LinkFrames.{BreachData};

    ghost Value = { BreachData };

    ghost view = { λ b. record { frame = b.frame.items; number = b.number; phase = b.phase; wtx = b.wtx } };

    ghost inverse = { λ b. record { frame = record { items = b.frame }; number = b.number; phase = b.phase; wtx = b.wtx } };
}

/// Why no response came.
#[derive(Debug, PartialEq, Eq, Drop)]
pub enum LinkEnd {
    /// Three bad exchanges since the block number's last toggle, or since the link was opened.
    Spent {
        /// How many there were.
        bad: u8,
    },
    /// An intact block outside the rules.
    Breach(Breach),
    /// The device failed.
    Device,
}

/// What follows a hearing.
#[derive(Drop)]
pub enum Next {
    /// The next frame is to be sent.
    Ask(Ask),
    /// The command has its response.
    Done(Response),
    /// The link has failed.
    Failed(LinkEnd),
}

/// What follows a hearing, where the next ask was written in place.
#[derive(Clone, Copy, Debug, PartialEq, Eq)]
pub enum Follows {
    /// The ask that was written is to be sent.
    Ask,
    /// The command has its response.
    Done,
    /// The link has failed after three bad exchanges.
    Spent,
    /// The link has failed in this phase, at a block outside the rules.
    Breach(Phase),
}

/// An exchange as a reader's end keeps it.
#[derive(Debug, Default, Drop)]
pub struct Kept {
    /// All bytes of the frame that was sent.
    pub sent: FrameBuf,
    /// What was heard.
    pub heard: Heard,
}

impl Model for Kept {
    ghost use Rattle.ep_base.specs.Link.LinkFrames.{Kept};
    ghost use Rattle.rf_frame.specs.Meaning.{heard_of};

    ghost Value = { Kept };

    ghost view = { λ k. record { sent = k.sent.items; heard = heard_of k.heard } };
}
