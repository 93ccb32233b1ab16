//! A reader's end.
ghost use Rattle.std.specs.Prelude.{◌≤◌};
ghost use Rattle.arrayvec.specs.ArrayVec.{array_vec_len};
ghost use Rattle.block_reader.specs.Counts.{IsCounted};

use crate::Kept;
use crate::progress::Progress;
use arrayvec::ArrayVec;
use ep_base::{BETWEEN_TOGGLES, CardKind};

/// The reader's end of an open link (ISO/IEC 14443-4). No call of it takes memory.
#[derive(Drop)]
pub struct ReaderEnd {
    pub(crate) kind: CardKind,
    pub(crate) fwi: u8,
    pub(crate) progress: Progress,
    pub(crate) since: ArrayVec<Kept, BETWEEN_TOGGLES>,
    ghost fwi_most: { fwi ≤ 14 },
    ghost counted: { IsCounted progress.stage progress.question progress.bad progress.wtx (array_vec_len since) },
}
