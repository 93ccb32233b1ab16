//! The card's end of a link, as it is called.
ghost use Rattle.std.specs.Prelude.{◌≡◌, ℕ, ◌≤◌, true, List};
ghost use Rattle.std.specs.Option.{option_copied};
ghost use Rattle.ep_base.specs.Cards.Apdu.{is_command};
ghost use Rattle.ep_base.specs.Air.Heard.{wave_of_kind};
ghost use Rattle.ep_base.specs.Link.CardEnd.{Card, answers, is_halted, fresh_card};
ghost use Rattle.block_card.specs.declared.held.CardNext.TheVariants as next;
ghost use Rattle.block_card.specs.Held.{IsCard, held_card, card_of, kind_of, fsd_of};
ghost use Rattle.block_card.specs.Shows.{Answers, IsReady, next_of, ShowsFrame};

use crate::held::{CardEnd, CardNext, Last, Step};
use apdu::{Command, Response};
use arrayvec::ArrayVec;
use block_pcb::decode;
use ep_base::{CardKind, FRAME, FrameBuf, Wave};

impl CardEnd {
    /// The end of a card of this kind that was just activated, whose reader has frames of this size: one that
    /// `frame_size` gives, which is 16 to 256 bytes.
    pub fn open(kind: CardKind, fsd: u16) -> CardEnd
        requires least { 16 ≤ fsd }
        requires most { fsd ≤ FRAME }
        ensures by_rules { IsCard (held_card result) fresh_card }
        ensures card { card_of (held_card result) ≡ fresh_card }
        ensures kind { kind_of result ≡ kind }
        ensures kept { fsd_of result ≡ fsd }
    {
        CardEnd {
            kind,
            fsd,
            number: true,
            last: Last::Nothing,
            taken: ArrayVec::new(),
            response: ArrayVec::new(),
            place: 0,
            waiting: false,
            wtx: 0,
            wtxm: 1,
        }
    }

    /// Becomes what `open` gives for a card of its kind.
    pub fn reopen(&mut self, fsd: u16)
        requires least { 16 ≤ fsd }
        requires most { fsd ≤ FRAME }
        ensures by_rules { IsCard (held_card self.new) fresh_card }
        ensures card { card_of (held_card self.new) ≡ fresh_card }
        ensures kind { kind_of self.new ≡ kind_of self.old }
        ensures kept { fsd_of self.new ≡ fsd }
    {
        self.fsd = fsd;
        self.number = true;
        self.last = Last::Nothing;
        self.place = 0;
        self.taken.clear();
        self.response.clear();
        self.waiting = false;
        self.wtx = 0;
        self.wtxm = 1;
    }

    /// Takes the bytes of a frame without its check, `None` for a damaged frame, and does with them what the card's
    /// rules say (ISO/IEC 14443-4). A damaged frame, bytes that are no block, and all that comes after S(DESELECT)
    /// leave the end as it is, and nothing is sent. Bytes that are no command are answered `6700` at once. After
    /// `Execute` the next call is `answer`.
    pub fn receive(&mut self, payload: Option<&[u8]>) -> CardNext
        ensures by_rules { (c : Card) → IsCard (held_card self.old) c → ShowsFrame result (held_card self.old) (held_card self.new) c (option_copied payload.entry) }
        ensures kind { kind_of self.new ≡ kind_of self.old }
        ensures kept { fsd_of self.new ≡ fsd_of self.old }
    {
        let mut frame = FrameBuf::new();
        let step = self.receive_into(payload, &mut frame);
        self.next(step, frame)
    }

    /// Takes the bytes of a frame as `receive` does, and writes the frame that is sent in place of another. The command
    /// that is executed is then what `command` gives.
    pub fn receive_into(&mut self, payload: Option<&[u8]>, frame: &mut FrameBuf) -> Step
        ensures by_rules { (c : Card) → IsCard (held_card self.old) c →
            ShowsFrame (next_of result frame.new (held_card self.new).taken) (held_card self.old) (held_card self.new) c (option_copied payload.entry) }
        ensures kind { kind_of self.new ≡ kind_of self.old }
        ensures kept { fsd_of self.new ≡ fsd_of self.old }
        ensures ready { IsReady result (held_card self.new).taken }
    {
        let Some(message) = payload else {
            return Step::Mute;
        };
        if self.halted() {
            return Step::Mute;
        }
        match decode(message) {
            Ok(block) => {
                let step = self.receive_block(&block);
                self.follow(step, frame)
            }
            Err(_) => Step::Mute,
        }
    }

    // What is done, with the frame that was written.
    fn next(&self, step: Step, frame: FrameBuf) -> CardNext
        requires ready { IsReady step (held_card self.now).taken }
        ensures { result ≡ next_of step frame (held_card self.now).taken }
    {
        match step {
            Step::Mute => CardNext::Mute,
            Step::Send => CardNext::Send(frame),
            Step::Execute => CardNext::Execute(self.command()),
        }
    }

    /// The command that the last call gave for execution.
    pub fn command(&self) -> Command
        requires ready { is_command (held_card self.now).taken ≡ true }
        ensures value { result ≡ (held_card self.now).taken }
    {
        Command::of(self.taken.as_slice()).unwrap()
    }

    /// The answer to the command that the last call gave for execution: the first S(WTX) where `wtx`, at most 8, is
    /// above 0, else the first part of the response. WTXM is 1 to 59.
    pub fn answer(&mut self, response: &Response, wtx: u8, wtxm: u8) -> FrameBuf
        requires waits { wtx ≤ 8 }
        requires least { 1 ≤ wtxm }
        requires most { wtxm ≤ 59 }
        ensures by_rules { (log : List (List ℕ)) → Answers (next.Send result) (held_card self.new) log
            (answers (held_card self.old).fsd (held_card self.old).number (record { response = response.now; wtx = wtx; wtxm = wtxm }) log) }
        ensures kind { kind_of self.new ≡ kind_of self.old }
        ensures kept { fsd_of self.new ≡ fsd_of self.old }
    {
        let mut frame = FrameBuf::new();
        self.answer_into(response, wtx, wtxm, &mut frame);
        frame
    }

    /// The answer as `answer` gives it, written in place of another frame.
    pub fn answer_into(&mut self, response: &Response, wtx: u8, wtxm: u8, frame: &mut FrameBuf)
        requires waits { wtx ≤ 8 }
        requires least { 1 ≤ wtxm }
        requires most { wtxm ≤ 59 }
        ensures by_rules { (log : List (List ℕ)) → Answers (next.Send frame.new) (held_card self.new) log
            (answers (held_card self.old).fsd (held_card self.old).number (record { response = response.now; wtx = wtx; wtxm = wtxm }) log) }
        ensures kind { kind_of self.new ≡ kind_of self.old }
        ensures kept { fsd_of self.new ≡ fsd_of self.old }
    {
        self.begin(response, wtx, wtxm);
        self.put_last(frame);
    }

    /// Whether the card was halted by S(DESELECT).
    pub fn halted(&self) -> bool
        ensures by_rules { (c : Card) → IsCard (held_card self.now) c → result ≡ is_halted c }
    {
        matches!(self.last, Last::Deselected)
    }

    /// The wave of the card's frames.
    pub fn wave(&self) -> Wave
        ensures value { result ≡ wave_of_kind (kind_of self.now) }
    {
        match self.kind {
            CardKind::A => Wave::A,
            CardKind::B => Wave::B,
        }
    }

    /// The card's kind.
    pub fn kind(&self) -> CardKind
        ensures value { result ≡ kind_of self.now }
    {
        self.kind
    }

    /// The size of the reader's frames, in bytes.
    pub fn fsd(&self) -> u16
        ensures value { result ≡ fsd_of self.now }
        ensures least { 16 ≤ result }
        ensures most { result ≤ FRAME }
    {
        self.fsd
    }
}
