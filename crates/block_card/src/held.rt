//! What a card's end of a link holds, and what it gives.
ghost use Rattle.std.specs.Prelude.{◌≤◌};
ghost use Rattle.arrayvec.specs.ArrayVec.{array_vec_len};
ghost use Rattle.ep_base.specs.declared.limits.TheConstants.{FRAME};

use apdu::Command;
use arrayvec::ArrayVec;
use ep_base::{COMMAND, CardKind, FrameBuf, RESPONSE};

/// What a card does after a frame.
#[derive(Drop)]
pub enum CardNext {
    /// It sends nothing.
    Mute,
    /// It sends this frame, its check bytes among its bytes.
    Send(FrameBuf),
    /// It executes this command, to which `CardEnd::answer` then takes the response.
    Execute(Command),
}

/// Which block was sent last.
#[derive(Clone, Copy)]
pub(crate) enum Last {
    /// None in this link.
    Nothing,
    /// R(ACK).
    Ack,
    /// S(WTX).
    Waiting,
    /// The I-block with the part of the response that begins at this place.
    Part(usize),
    /// S(DESELECT).
    Deselected,
}

/// What a card does after a frame, where the frame that it sends is written in place.
#[derive(Clone, Copy, Debug, PartialEq, Eq)]
pub enum Step {
    /// It sends nothing.
    Mute,
    /// It sends its last block.
    Send,
    /// It executes the bytes that it took, where they are a command.
    Execute,
}

/// The card's end of an open link. Its block number is 1 at first (ISO/IEC 14443-4).
#[derive(Drop)]
pub struct CardEnd {
    pub(crate) kind: CardKind,
    // The size of the reader's frames.
    pub(crate) fsd: u16,
    pub(crate) number: bool,
    pub(crate) last: Last,
    // The bytes of the command that came so far.
    pub(crate) taken: ArrayVec<u8, COMMAND>,
    // The last response, and where its next part begins.
    pub(crate) response: ArrayVec<u8, RESPONSE>,
    pub(crate) place: usize,
    // Whether an S(WTX) was sent to which no answer came yet; how many more come, and their WTXM.
    pub(crate) waiting: bool,
    pub(crate) wtx: u8,
    pub(crate) wtxm: u8,
    ghost sized: { 16 ≤ fsd },
    ghost bounded: { fsd ≤ FRAME },
    ghost within: { place ≤ array_vec_len response },
    ghost some_time: { 1 ≤ wtxm },
    ghost bounded_time: { wtxm ≤ 59 },
}
