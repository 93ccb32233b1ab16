//! The blocks that a reader's end sends.
ghost use Rattle.std.specs.Prelude.{◌≡◌, ◌≤◌, true, []};
ghost use Rattle.arrayvec.specs.ArrayVec.{array_vec_len};
ghost use Rattle.ep_base.specs.Cards.Apdu.{is_command};
ghost use Rattle.ep_base.specs.Link.LinkFrames.{block_ask, block_frame, wait_of};
ghost use Rattle.ep_base.specs.Link.ReaderEnd as rules;
ghost use Rattle.block_pcb.specs.Meaning.{block_of, InRange};
ghost use Rattle.block_reader.specs.Counts.{is_open, spare, IsLawful};
ghost use Rattle.block_reader.specs.Progress.{block_due, block_from, carried, course, IsAt, Keeps, Sends};

use crate::hearing::wave_of;
use crate::progress::Progress;
use crate::stages::{Question, Stage};
use apdu::{Command, Response};
use block_pcb::{Block, encode};
use ep_base::{CardKind, FrameBuf};
use rf_frame::{Ask, seal};

/// The waiting number of a block (ISO/IEC 14443-4).
fn waiting(fwi: u8, block: &Block<'_>) -> u32
    requires fwi { fwi ≤ 14 }
    requires range { InRange block.now }
    ensures { result ≡ wait_of fwi (block_of block.now) }
{
    let wait = 1u32 << fwi;
    match *block {
        Block::Wtx { wtxm, .. } => (wait * u32::from(wtxm)).min(16384),
        _ => wait,
    }
}

/// Puts a block, in a frame of the card's kind, in place of all that a frame has.
pub(crate) fn put_frame(kind: CardKind, block: &Block<'_>, frame: &mut FrameBuf)
    requires range { InRange block.now }
    ensures { frame.new.items ≡ (block_frame kind (block_of block.now)).bytes }
{
    frame.clear();
    encode(block, frame);
    seal(wave_of(kind), frame);
}

/// Asks with a block, in a frame of the card's kind, in place of another ask.
pub(crate) fn put_block(kind: CardKind, fwi: u8, block: &Block<'_>, ask: &mut Ask)
    requires fwi { fwi ≤ 14 }
    requires range { InRange block.now }
    ensures { ask.new ≡ block_ask kind fwi (block_of block.now) }
{
    ask.reset = false;
    ask.wave = wave_of(kind);
    ask.wait = waiting(fwi, block);
    put_frame(kind, block, &mut ask.frame);
}

impl Progress {
    /// The block of a question.
    pub(crate) fn block_for(&self, question: Question) -> Block<'_>
        requires lawful { IsLawful question }
        ensures block { block_of result ≡ block_from question (carried (course self.now)) }
        ensures range { InRange result }
    {
        let number = u8::from(self.number);
        match question {
            Question::Part => {
                let size = usize::from(self.card_frame) - 3;
                let left = self.command.len() - self.place;
                let part = if left > size { size } else { left };
                Block::I {
                    number,
                    chained: left > size,
                    inf: &self.command.as_slice()[self.place..self.place + part],
                }
            }
            Question::Ack => Block::RAck { number },
            Question::Nak => Block::RNak { number },
            Question::Waiting(wtxm) => Block::Wtx { power: 0, wtxm },
        }
    }

    /// The block that is due.
    pub(crate) fn block(&self) -> Block<'_>
        ensures block { block_of result ≡ block_due (course self.now) }
        ensures range { InRange result }
    {
        self.block_for(self.question)
    }

    /// Begins a command.
    pub(crate) fn begin(&mut self, command: &Command)
        ensures by_rules { (r : rules.Reader) → IsAt (course self.old) r → r.since ≡ [] →
            Sends (course self.new) (rules.begin self.old.card_frame command.now r) }
        ensures legal { is_command command.now ≡ true }
        ensures counts { (is_open self.new.stage ≡ true) × (spare self.new.question ≡ 0) × (self.new.bad ≡ self.old.bad) × (self.new.wtx ≡ self.old.wtx) }
        ensures kept { Keeps self.old self.new }
    {
        self.command.clear();
        self.command.try_extend_from_slice(command.bytes()).unwrap();
        self.place = 0;
        self.got.clear();
        self.stage = Stage::Sending;
        self.question = Question::Part;
    }

    /// The response, where it is whole.
    pub(crate) fn response(&self) -> Response
        requires { 2 ≤ array_vec_len self.now.got }
        ensures { result ≡ (course self.now).got }
    {
        Response::of(self.got.as_slice()).unwrap()
    }
}
