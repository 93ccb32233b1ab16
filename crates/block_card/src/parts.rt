//! The blocks that a card sends: parts of its response, and the last block again.
ghost use Rattle.std.specs.Prelude.{◌≡◌, ℕ, ◌≤◌, ◌-◌, ◌==◌, Some, List, drop};
ghost use Rattle.ep_base.specs.Link.Spelling.{spelled};
ghost use Rattle.ep_base.specs.Air.Frame.{sealed};
ghost use Rattle.ep_base.specs.Link.Parts.{cut};
ghost use Rattle.ep_base.specs.Link.CardEnd.{sends_part};
ghost use Rattle.block_pcb.specs.Meaning.{block_of, InRange};
ghost use Rattle.block_card.specs.declared.held.Step.TheVariants as steps;
ghost use Rattle.block_card.specs.declared.held.Last.TheVariants as last;
ghost use Rattle.block_card.specs.declared.held.CardNext.TheVariants as next;
ghost use Rattle.block_card.specs.Held.{held_card, last_shown, HasLast};
ghost use Rattle.block_card.specs.Shows.{IsReady, next_of, Replies, Says};

use crate::held::{CardEnd, Last, Step};
use block_pcb::{Block, encode};
use ep_base::{FrameBuf, Wave};
use rf_frame::seal;

// Puts a block, in a frame with its check bytes, in place of all that a frame has.
fn put_block(wave: Wave, block: &Block<'_>, frame: &mut FrameBuf)
    requires { InRange block.now }
    ensures { frame.new.items ≡ sealed wave (spelled (block_of block.now)) }
{
    frame.clear();
    encode(block, frame);
    seal(wave, frame);
}

impl CardEnd {
    // Sends the part of the response that begins at the place.
    pub(crate) fn send_part(&mut self)
        ensures sent { (log : List (List ℕ)) → Replies steps.Send (held_card self.new)
            (sends_part self.old.number
            (cut (self.old.fsd - 3) (drop self.old.place self.old.response.items)).first
            (cut (self.old.fsd - 3) (drop self.old.place self.old.response.items)).others log) }
        ensures some { HasLast self.new.last }
        ensures kind { self.new.kind ≡ self.old.kind }
        ensures kept { self.new.fsd ≡ self.old.fsd }
    {
        let size = usize::from(self.fsd) - 3;
        let left = self.response.len() - self.place;
        let part = left.min(size);
        self.last = Last::Part(self.place);
        self.taken.clear();
        self.waiting = false;
        self.place += part;
    }

    // The card's block number.
    fn block_number(&self) -> u8
        ensures value { (result == 1) ≡ self.now.number }
        ensures most { result ≤ 1 }
    {
        if self.number { 1 } else { 0 }
    }

    // The I-block with the part of the response that begins at this place.
    fn part_block(&self, place: usize) -> Block<'_>
        ensures block { Some (block_of result) ≡ last_shown (record (held_card self.now) { last = last.Part place }) }
        ensures range { InRange result }
    {
        let size = usize::from(self.fsd) - 3;
        let bytes = self.response.as_slice();
        let from = place.min(bytes.len());
        let end = bytes.len().min(from + size);
        Block::I {
            number: self.block_number(),
            chained: end < bytes.len(),
            inf: &bytes[from..end],
        }
    }

    // The block that was sent last.
    fn last_block(&self) -> Block<'_>
        requires { HasLast self.now.last }
        ensures block { Some (block_of result) ≡ last_shown (held_card self.now) }
        ensures range { InRange result }
    {
        match self.last {
            Last::Nothing => unreachable!(),
            Last::Ack => Block::RAck {
                number: self.block_number(),
            },
            Last::Waiting => Block::Wtx {
                power: 0,
                wtxm: self.wtxm,
            },
            Last::Part(place) => self.part_block(place),
            Last::Deselected => Block::Deselect,
        }
    }

    // Puts the block that was sent last, in its frame, in place of all that a frame has.
    pub(crate) fn put_last(&self, frame: &mut FrameBuf)
        requires { HasLast self.now.last }
        ensures { Says (next.Send frame.new) self.now.kind (last_shown (held_card self.now)) }
    {
        put_block(self.wave(), &self.last_block(), frame);
    }

    // Says the block that was sent last, if there is one.
    pub(crate) fn say_last(&self, frame: &mut FrameBuf) -> Step
        ensures says { Says (next_of result frame.new self.now.taken.items) self.now.kind (last_shown (held_card self.now)) }
        ensures ready { IsReady result self.now.taken.items }
    {
        match self.last {
            Last::Nothing => Step::Mute,
            _ => {
                self.put_last(frame);
                Step::Send
            }
        }
    }
}
