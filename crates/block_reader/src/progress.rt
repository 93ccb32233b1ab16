//! How far a command is.
ghost use Rattle.std.specs.Prelude.{◌≤◌};
ghost use Rattle.arrayvec.specs.ArrayVec.{array_vec_len};
ghost use Rattle.ep_base.specs.declared.limits.TheConstants.{FRAME};
ghost use Rattle.block_reader.specs.Counts.{IsLawful};

use crate::stages::{Question, Stage};
use arrayvec::ArrayVec;
use ep_base::{COMMAND, RESPONSE};

/// How far the command of a link is.
#[derive(Drop)]
pub(crate) struct Progress {
    /// The size of the frames that the card takes.
    pub(crate) card_frame: u16,
    /// The size of the frames that the reader takes.
    pub(crate) frame: u16,
    /// The block number.
    pub(crate) number: bool,
    pub(crate) stage: Stage,
    pub(crate) question: Question,
    /// Bad hearings since the toggle.
    pub(crate) bad: u8,
    /// S(WTX) since the toggle.
    pub(crate) wtx: u8,
    pub(crate) command: ArrayVec<u8, COMMAND>,
    /// Where the part begins that was sent last.
    pub(crate) place: usize,
    /// The parts of the response that came.
    pub(crate) got: ArrayVec<u8, RESPONSE>,
    ghost card_least: { 16 ≤ card_frame },
    ghost card_most: { card_frame ≤ FRAME },
    ghost within: { place ≤ array_vec_len command },
    ghost lawful: { IsLawful question },
}
