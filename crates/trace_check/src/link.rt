//! A link with a card: what it asks with a block, and what a hearing or a frame says as one.
ghost use Rattle.std.specs.Prelude.{◌≡◌, ◌≤◌, ◌<◌, ◌+◌, ◌^◌, option_map};
ghost use Rattle.ep_base.specs.Air.Heard.{wave_of_kind};
ghost use Rattle.ep_base.specs.Cards.CardLimits.{AreLimits};
ghost use Rattle.ep_base.specs.Link.LinkFrames.{block_ask, heard_block, wait_of};
ghost use Rattle.ep_base.specs.Poll.Radio.{setting_of};
ghost use Rattle.ep_base.specs.declared.limits.TheConstants.{INF};
ghost use Rattle.block_pcb.specs.Meaning.{block_of, InRange};
ghost use Rattle.rf_frame.specs.Meaning.{heard_of};
ghost use Rattle.trace_check.specs.Meaning.{inf_of, said_of, SaysInRange};
ghost use Rattle.trace_check.specs.Watch.{part_in};

use block_pcb::{Block, decode, encode};
use ep_base::{CardKind, FrameBuf, Wave, frame_size};
use rf_frame::{Activated, Ask, Heard, open_frame, seal};
use std::marker::Model;

/// What a hearing says.
#[derive(Clone, Copy)]
pub(crate) enum ReadBlock<'b> {
    /// Nothing that is intact.
    Bad,
    /// An intact frame that is no block, or too long.
    Junk,
    /// A block.
    Intact(Block<'b>),
}

/// An I-block: whether more parts follow, and its INF.
#[derive(Clone, Copy)]
pub(crate) struct Inf<'b> {
    pub(crate) chained: bool,
    pub(crate) bytes: &'b [u8],
}

/// A link: its card's kind, the frame sizes of both sides, and the card's FWI (ISO/IEC 14443-4).
#[derive(Drop)]
pub(crate) struct Link {
    kind: CardKind,
    card_frame: u16,
    frame: u16,
    fwi: u8,
}

impl Model for Link {
    ghost use Rattle.std.specs.Prelude.{◌≤◌};
    ghost use Rattle.ep_base.specs.declared.limits.TheConstants.{FRAME};
    ghost use Rattle.ep_base.specs.Link.LinkFrames.{LinkSetting};

    ghost Value = { LinkSetting };

    ghost view = { λ l. record { kind = l.kind; frames = record { card = l.card_frame; reader = l.frame }; fwi = l.fwi } };

    ghost invariant = { λ l. (16 ≤ l.card_frame) × (l.card_frame ≤ FRAME) × (l.fwi ≤ 14) };
}

/// The wave of a kind's frames with check bytes (ISO/IEC 14443-3).
fn wave_of(kind: CardKind) -> Wave
    ensures { result ≡ wave_of_kind kind }
{
    match kind {
        CardKind::A => Wave::A,
        CardKind::B => Wave::B,
    }
}

/// The waiting number of a block (ISO/IEC 14443-4).
fn waiting(fwi: u8, block: &Block<'_>) -> u32
    requires fwi { fwi ≤ 14 }
    requires range { InRange block.now }
    ensures { result ≡ wait_of fwi (block_of block.now) }
{
    let wait = 1u32 << fwi;
    match *block {
        Block::Wtx { wtxm, .. } => (wait * u32::from(wtxm)).min(16384),
        _ => wait,
    }
}

impl Link {
    /// The link with a card that was activated by a reader of this FSDI.
    pub(crate) fn to(card: &Activated, fsdi: u8) -> Link
        requires fsdi { fsdi < 16 }
        requires limits { AreLimits card.now.fsc card.now.fwi }
        ensures { result ≡ setting_of fsdi card.now }
    {
        Link {
            kind: card.kind,
            card_frame: card.fsc,
            frame: frame_size(fsdi),
            fwi: card.fwi,
        }
    }

    /// How many bytes of INF the parts of a command have, but for the last one.
    pub(crate) fn part_size(&self) -> usize
        ensures value { result + 3 ≡ self.now.frames.card }
        ensures most { result ≤ INF }
    {
        usize::from(self.card_frame) - 3
    }

    /// The size of the frames that the reader takes.
    pub(crate) fn frame(&self) -> usize
        ensures value { result ≡ self.now.frames.reader }
        ensures most { result < 2 ^ 16 }
    {
        usize::from(self.frame)
    }

    /// What the reader asks with a block.
    pub(crate) fn ask(&self, block: &Block<'_>) -> Ask
        requires range { InRange block.now }
        ensures { result ≡ block_ask self.now.kind self.now.fwi (block_of block.now) }
    {
        let wave = wave_of(self.kind);
        let mut frame = FrameBuf::new();
        encode(block, &mut frame);
        seal(wave, &mut frame);
        Ask {
            reset: false,
            wave,
            frame,
            wait: waiting(self.fwi, block),
        }
    }

    /// What a hearing says to the reader.
    pub(crate) fn read<'h>(&self, heard: &'h Heard) -> ReadBlock<'h>
        ensures said { said_of result ≡ heard_block self.now.kind self.now.frames.reader (heard_of heard.now) }
        ensures range { SaysInRange result }
    {
        match heard {
            Heard::Silence | Heard::Noise | Heard::Overlap => ReadBlock::Bad,
            Heard::Frame { wave, bytes } => {
                if *wave != wave_of(self.kind) {
                    return ReadBlock::Bad;
                }
                let Some(message) = open_frame(*wave, bytes) else {
                    return ReadBlock::Bad;
                };
                if bytes.len() > usize::from(self.frame) {
                    return ReadBlock::Junk;
                }
                match decode(message) {
                    Ok(block) => ReadBlock::Intact(block),
                    Err(_) => ReadBlock::Junk,
                }
            }
        }
    }

    /// The I-block that a frame of this link is, if it is one.
    pub(crate) fn part<'f>(&self, wave: Wave, frame: &'f FrameBuf) -> Option<Inf<'f>>
        ensures { option_map inf_of result ≡ part_in self.now wave frame.now.items }
    {
        if wave != wave_of(self.kind) {
            return None;
        }
        let Some(message) = open_frame(wave, frame) else {
            return None;
        };
        match decode(message) {
            Ok(Block::I { chained, inf, .. }) => Some(Inf {
                chained,
                bytes: inf,
            }),
            _ => None,
        }
    }
}
