//! The card's rules, for each kind of block.
ghost use Rattle.std.specs.Prelude.{◌≡◌, ℕ, ◌≤◌, Bool, false, List, length};
ghost use Rattle.ep_base.specs.Link.Block as plain;
ghost use Rattle.ep_base.specs.Link.CardEnd.{Card, Answer, again, answers};
ghost use Rattle.block_pcb.specs.Meaning.{block_of};
ghost use Rattle.block_card.specs.declared.held.Step.TheVariants as steps;
ghost use Rattle.block_card.specs.Held.{IsCard, held_card, HasLast};
ghost use Rattle.block_card.specs.Shows.{IsReady, next_of, Replies, StepShows, Shows};

use crate::held::{CardEnd, Last, Step};
use apdu::{Command, Response};
use block_pcb::Block;
use ep_base::FrameBuf;

// The answer to bytes that are no command.
const WRONG_LENGTH: [u8; 2] = [0x67, 0x00];

impl CardEnd {
    // The last block again, if there is one.
    fn repeat(&mut self) -> Step
        ensures by_rules { (c : Card) → IsCard (held_card self.old) c → Replies result (held_card self.new) (again c) }
        ensures kind { self.new.kind ≡ self.old.kind }
        ensures kept { self.new.fsd ≡ self.old.fsd }
    {
        match self.last {
            Last::Nothing => Step::Mute,
            _ => Step::Send,
        }
    }

    // The last block again where it has the card's number, else an R(ACK).
    fn receive_nak(&mut self, number: bool) -> Step
        ensures by_rules { (c : Card) → IsCard (held_card self.old) c → StepShows result (held_card self.new) c (plain.RNak number) }
        ensures kind { self.new.kind ≡ self.old.kind }
        ensures kept { self.new.fsd ≡ self.old.fsd }
    {
        if number != self.number {
            self.last = Last::Ack;
            return Step::Send;
        }
        self.repeat()
    }

    // The last block again where it has the card's number, else the next part of the response.
    fn receive_ack(&mut self, number: bool) -> Step
        ensures by_rules { (c : Card) → IsCard (held_card self.old) c → StepShows result (held_card self.new) c (plain.RAck number) }
        ensures kind { self.new.kind ≡ self.old.kind }
        ensures kept { self.new.fsd ≡ self.old.fsd }
    {
        if number == self.number {
            return self.repeat();
        }
        let left = self.response.len() - self.place;
        if self.waiting || left == 0 {
            return Step::Mute;
        }
        self.number = !self.number;
        self.send_part();
        Step::Send
    }

    // After the card's own S(WTX) the next one, or the response.
    fn receive_wtx(&mut self) -> Step
        ensures by_rules { (power wtxm : ℕ) (c : Card) → IsCard (held_card self.old) c → StepShows result (held_card self.new) c (plain.Wtx power wtxm) }
        ensures kind { self.new.kind ≡ self.old.kind }
        ensures kept { self.new.fsd ≡ self.old.fsd }
    {
        if !self.waiting {
            return Step::Mute;
        }
        self.taken.clear();
        if self.wtx > 0 {
            self.wtx -= 1;
            self.last = Last::Waiting;
            return Step::Send;
        }
        self.place = 0;
        self.send_part();
        Step::Send
    }

    // A part of a command, which is dropped where the command becomes too long.
    fn receive_part(&mut self, chained: bool, inf: &[u8]) -> Step
        ensures by_rules { (number : Bool) (c : Card) → IsCard (held_card self.old) c → StepShows result (held_card self.new) c (plain.I number chained inf.now) }
        ensures kind { self.new.kind ≡ self.old.kind }
        ensures kept { self.new.fsd ≡ self.old.fsd }
    {
        self.drop_response();
        if self.taken.try_extend_from_slice(inf).is_err() {
            self.taken.clear();
            return Step::Mute;
        }
        self.number = !self.number;
        if chained {
            self.last = Last::Ack;
            return Step::Send;
        }
        Step::Execute
    }

    // Halts the card.
    fn receive_deselect(&mut self) -> Step
        ensures by_rules { (c : Card) → IsCard (held_card self.old) c → StepShows result (held_card self.new) c plain.Deselect }
        ensures kind { self.new.kind ≡ self.old.kind }
        ensures kept { self.new.fsd ≡ self.old.fsd }
    {
        self.last = Last::Deselected;
        self.taken.clear();
        self.drop_response();
        Step::Send
    }

    // Nothing is left to send.
    fn drop_response(&mut self)
        ensures { held_card self.new ≡ record (held_card self.old) { waiting = false; place = length self.old.response.items } }
    {
        self.waiting = false;
        self.place = self.response.len();
    }

    // Takes a block, by the card's rules.
    pub(crate) fn receive_block(&mut self, block: &Block<'_>) -> Step
        ensures by_rules { (c : Card) → IsCard (held_card self.old) c → StepShows result (held_card self.new) c (block_of block.now) }
        ensures kind { self.new.kind ≡ self.old.kind }
        ensures kept { self.new.fsd ≡ self.old.fsd }
    {
        match *block {
            Block::I { chained, inf, .. } => self.receive_part(chained, inf),
            Block::RAck { number } => self.receive_ack(number == 1),
            Block::RNak { number } => self.receive_nak(number == 1),
            Block::Deselect => self.receive_deselect(),
            Block::Wtx { .. } => self.receive_wtx(),
        }
    }

    // Begins to send a response, after so many S(WTX).
    pub(crate) fn begin(&mut self, response: &Response, wtx: u8, wtxm: u8)
        requires least { 1 ≤ wtxm }
        requires most { wtxm ≤ 59 }
        ensures by_rules { (log : List (List ℕ)) → Replies steps.Send (held_card self.new)
            (answers self.old.fsd self.old.number (record { response = response.now; wtx = wtx; wtxm = wtxm }) log) }
        ensures some { HasLast self.new.last }
        ensures kind { self.new.kind ≡ self.old.kind }
        ensures kept { self.new.fsd ≡ self.old.fsd }
    {
        self.response.clear();
        self.response
            .try_extend_from_slice(response.bytes())
            .unwrap();
        self.wtxm = wtxm;
        self.place = 0;
        self.taken.clear();
        if wtx > 0 {
            self.wtx = wtx - 1;
            self.waiting = true;
            self.last = Last::Waiting;
            return;
        }
        self.send_part();
    }

    // The bytes that were taken as a command; those that are none are answered at once.
    #[inline(never)]
    fn execute(&mut self, frame: &mut FrameBuf) -> Step
        ensures by_rules { (c : Card) (block : plain.Block) → StepShows steps.Execute (held_card self.old) c block →
            Shows (next_of result frame.new self.new.taken.items) (held_card self.new) c block }
        ensures kind { self.new.kind ≡ self.old.kind }
        ensures kept { self.new.fsd ≡ self.old.fsd }
        ensures ready { IsReady result self.new.taken.items }
    {
        match Command::of(self.taken.as_slice()) {
            Ok(_) => Step::Execute,
            Err(_) => {
                let response = Response::of(&WRONG_LENGTH).unwrap();
                self.begin(&response, 0, 1);
                self.put_last(frame);
                Step::Send
            }
        }
    }

    // Does what a block leads to.
    pub(crate) fn follow(&mut self, step: Step, frame: &mut FrameBuf) -> Step
        ensures by_rules { (c : Card) (block : plain.Block) → StepShows step (held_card self.old) c block →
            Shows (next_of result frame.new self.new.taken.items) (held_card self.new) c block }
        ensures kind { self.new.kind ≡ self.old.kind }
        ensures kept { self.new.fsd ≡ self.old.fsd }
        ensures ready { IsReady result self.new.taken.items }
    {
        match step {
            Step::Mute => Step::Mute,
            Step::Send => self.say_last(frame),
            Step::Execute => self.execute(frame),
        }
    }
}
