//! What a hearing says, as the rules of the block protocol see it.
ghost use Rattle.std.specs.Prelude.{◌≡◌};
ghost use Rattle.ep_base.specs.Air.Heard.{wave_of_kind};
ghost use Rattle.ep_base.specs.Link.LinkFrames.{heard_block};
ghost use Rattle.rf_frame.specs.Meaning.{heard_of};
ghost use Rattle.block_reader.specs.ReadBlocks.{said_of, SaysInRange};

use block_pcb::{Block, decode};
use ep_base::{CardKind, Wave};
use rf_frame::{Heard, open_frame};

/// What a hearing says.
#[derive(Clone, Copy)]
pub(crate) enum ReadBlock<'b> {
    /// Nothing that is intact.
    Bad,
    /// An intact frame that is no block, or too long.
    Junk,
    /// A block.
    Intact(Block<'b>),
}

/// The wave of a kind's frames with check bytes (ISO/IEC 14443-3).
pub(crate) fn wave_of(kind: CardKind) -> Wave
    ensures { result ≡ wave_of_kind kind }
{
    match kind {
        CardKind::A => Wave::A,
        CardKind::B => Wave::B,
    }
}

/// What a hearing says to a reader that takes frames of this size.
pub(crate) fn read_hearing(kind: CardKind, frame: u16, heard: &Heard) -> ReadBlock<'_>
    ensures said { said_of result ≡ heard_block kind frame (heard_of heard.now) }
    ensures range { SaysInRange result }
{
    match heard {
        Heard::Silence => ReadBlock::Bad,
        Heard::Noise => ReadBlock::Bad,
        Heard::Overlap => ReadBlock::Bad,
        Heard::Frame { wave, bytes } => {
            if *wave != wave_of(kind) {
                return ReadBlock::Bad;
            }
            let Some(message) = open_frame(*wave, bytes) else {
                return ReadBlock::Bad;
            };
            if bytes.len() > usize::from(frame) {
                return ReadBlock::Junk;
            }
            match decode(message) {
                Ok(block) => ReadBlock::Intact(block),
                Err(_) => ReadBlock::Junk,
            }
        }
    }
}
