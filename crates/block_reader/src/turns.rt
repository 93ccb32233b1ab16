//! A reader's end: how a command begins, what a hearing leads to, and how the link is closed.
ghost use Rattle.std.specs.Prelude.{◌≡◌, ◌≤◌, ◌<◌, ◌++◌, ◌&&◌, nat_le, [], ◌∷◌, true, List, length};
ghost use Rattle.ep_base.specs.Cards.Apdu.{is_command};
ghost use Rattle.ep_base.specs.Link.Block.{is_bad, Deselect};
ghost use Rattle.ep_base.specs.Link.Dialogue.{block_of, opened_reader};
ghost use Rattle.ep_base.specs.Air.FrameSize as sizes;
ghost use Rattle.ep_base.specs.Link.ReaderEnd.{Reader, asked, begin as begun};
ghost use Rattle.ep_base.specs.Link.Spelling.{number_bit};
ghost use Rattle.ep_base.specs.Link.LinkFrames.{block_ask, heard_block};
ghost use Rattle.ep_base.specs.Link.LinkEvents.{Begins, Hears, LinkEvent, exchange_of, kept_after, standing_after};
ghost use Rattle.ep_base.specs.Link.Carry.{turn_on};
ghost use Rattle.rf_frame.specs.Meaning.{heard_of};
ghost use Rattle.block_reader.specs.Follows.{next_of, HasWhole};
ghost use Rattle.block_reader.specs.Progress.{block_due};
ghost use Rattle.block_reader.specs.Stands.{held, is_open, is_resting, asks_on, is_done, is_spent, left_of, Rests, Asking, Closed, Shows, Says, StandsFor, IsDevice};

use crate::asking::put_block;
use crate::hearing::read_hearing;
use crate::keeping::forget;
use crate::progress::Progress;
use crate::stages::{Question, Stage, Step};
use crate::{Follows, Kept, LinkEnd, Next, ReaderEnd};
use apdu::{Command, Response};
use arrayvec::ArrayVec;
use block_pcb::Block;
use ep_base::{BETWEEN_TOGGLES, FRAME, frame_size};
use rf_frame::{Activated, Ask, Heard};

impl ReaderEnd {
    /// The reader's end of a link to a card that was activated, for a reader whose frame size has this code. The
    /// card's frame size is 16 to 256 bytes, and its FWI at most 14.
    pub fn open(card: &Activated, fsdi: u8) -> ReaderEnd
        requires code { fsdi < 16 }
        requires least { 16 ≤ card.now.fsc }
        requires most { card.now.fsc ≤ FRAME }
        requires fwi { card.now.fwi ≤ 14 }
        ensures kind { (held result).set.kind ≡ card.now.kind }
        ensures card { (held result).set.frames.card ≡ card.now.fsc }
        ensures reader { (held result).set.frames.reader ≡ sizes.frame_size fsdi }
        ensures wait { (held result).set.fwi ≡ card.now.fwi }
        ensures by_rules { Rests (held result) opened_reader }
        ensures stands { StandsFor (held result) [] }
    {
        ReaderEnd {
            kind: card.kind,
            fwi: card.fwi,
            progress: Progress {
                card_frame: card.fsc,
                frame: frame_size(fsdi),
                number: false,
                stage: Stage::Resting,
                question: Question::Part,
                bad: 0,
                wtx: 0,
                command: ArrayVec::new(),
                place: 0,
                got: ArrayVec::new(),
            },
            since: ArrayVec::new(),
        }
    }

    /// Becomes what `open` gives.
    pub fn reopen(&mut self, card: &Activated, fsdi: u8)
        requires code { fsdi < 16 }
        requires least { 16 ≤ card.now.fsc }
        requires most { card.now.fsc ≤ FRAME }
        requires fwi { card.now.fwi ≤ 14 }
        ensures kind { (held self.new).set.kind ≡ card.now.kind }
        ensures card { (held self.new).set.frames.card ≡ card.now.fsc }
        ensures reader { (held self.new).set.frames.reader ≡ sizes.frame_size fsdi }
        ensures wait { (held self.new).set.fwi ≡ card.now.fwi }
        ensures by_rules { Rests (held self.new) opened_reader }
        ensures stands { StandsFor (held self.new) [] }
    {
        self.kind = card.kind;
        self.fwi = card.fwi;
        self.progress.card_frame = card.fsc;
        self.progress.frame = frame_size(fsdi);
        self.progress.number = false;
        self.progress.stage = Stage::Resting;
        self.progress.question = Question::Part;
        self.progress.bad = 0;
        self.progress.wtx = 0;
        self.progress.place = 0;
        self.progress.command.clear();
        self.progress.got.clear();
        forget(&mut self.since);
    }

    /// Writes what the open command asks now.
    fn put_ask(&self, ask: &mut Ask)
        ensures { ask.new ≡ block_ask (held self.now).set.kind (held self.now).set.fwi (block_due (held self.now).course) }
    {
        put_block(self.kind, self.fwi, &self.progress.block(), ask);
    }

    /// Begins a command where none is open and the link neither failed nor was closed: asks with its first part.
    pub fn begin(&mut self, command: &Command) -> Ask
        requires resting { is_resting (held self.old) ≡ true }
        ensures by_rules { (r : Reader) → Rests (held self.old) r →
            Asking (held self.new) (begun (held self.old).set.frames.card command.now r)
            × (result ≡ block_ask (held self.old).set.kind (held self.old).set.fwi (asked (begun (held self.old).set.frames.card command.now r))) }
        ensures setting { (held self.new).set ≡ (held self.old).set }
        ensures open { is_open (held self.new) ≡ true }
        ensures legal { is_command command.now ≡ true }
        ensures stands { (es : List LinkEvent) → StandsFor (held self.old) es →
            StandsFor (held self.new) (es ++ Begins command.now ∷ [])
            × (result ≡ block_ask (held self.old).set.kind (held self.old).set.fwi (block_of (standing_after (held self.old).set (es ++ Begins command.now ∷ [])).turn)) }
    {
        let mut ask = Ask::blank();
        self.begin_into(command, &mut ask);
        ask
    }

    /// Begins a command as `begin` does, and writes what is asked in place of another ask.
    pub fn begin_into(&mut self, command: &Command, ask: &mut Ask)
        requires resting { is_resting (held self.old) ≡ true }
        ensures by_rules { (r : Reader) → Rests (held self.old) r →
            Asking (held self.new) (begun (held self.old).set.frames.card command.now r)
            × (ask.new ≡ block_ask (held self.old).set.kind (held self.old).set.fwi (asked (begun (held self.old).set.frames.card command.now r))) }
        ensures setting { (held self.new).set ≡ (held self.old).set }
        ensures open { is_open (held self.new) ≡ true }
        ensures legal { is_command command.now ≡ true }
        ensures stands { (es : List LinkEvent) → StandsFor (held self.old) es →
            StandsFor (held self.new) (es ++ Begins command.now ∷ [])
            × (ask.new ≡ block_ask (held self.old).set.kind (held self.old).set.fwi (block_of (standing_after (held self.old).set (es ++ Begins command.now ∷ [])).turn)) }
    {
        self.progress.begin(command);
        self.put_ask(ask);
    }

    /// Takes what was heard, step by step.
    fn take(&mut self, heard: &Heard, ask: &mut Ask) -> Follows
        requires open { is_open (held self.old) ≡ true }
        ensures by_rules { (r : Reader) → Asking (held self.old) r →
            Shows (next_of result ask.new (held self.new) (heard_of heard.now)) (held self.new) (heard_of heard.now) (turn_on (held self.old).set r (heard_of heard.now)) }
        ensures kept { (r : Reader) → Asking (held self.old) r →
            (held self.new).since ≡ kept_after (held self.old).since r (turn_on (held self.old).set r (heard_of heard.now)) (exchange_of (held self.old).set r (heard_of heard.now)) }
        ensures setting { (held self.new).set ≡ (held self.old).set }
        ensures open { is_open (held self.new) ≡ asks_on (next_of result ask.new (held self.new) (heard_of heard.now)) }
        ensures resting { is_resting (held self.new) ≡ is_done (next_of result ask.new (held self.new) (heard_of heard.now)) }
        ensures left { asks_on (next_of result ask.new (held self.new) (heard_of heard.now)) ≡ true → left_of (held self.new) < left_of (held self.old) }
        ensures device { IsDevice (next_of result ask.new (held self.new) (heard_of heard.now)) → ⊥ }
        ensures spent { is_spent (next_of result ask.new (held self.new) (heard_of heard.now)) ≡ (is_bad (heard_block (held self.old).set.kind (held self.old).set.frames.reader (heard_of heard.now)) && nat_le 2 (held self.old).course.bad) }
        ensures whole { HasWhole result (held self.new).course.got }
    {
        let question = self.progress.question;
        let said = read_hearing(self.kind, self.progress.frame, heard);
        match self.progress.hear(said) {
            Step::Again => {
                self.progress
                    .keep(question, self.kind, heard, &mut self.since);
                self.put_ask(ask);
                Follows::Ask
            }
            Step::Toggled => {
                forget(&mut self.since);
                self.put_ask(ask);
                Follows::Ask
            }
            Step::Done => {
                forget(&mut self.since);
                Follows::Done
            }
            Step::Spent => {
                self.progress
                    .keep(question, self.kind, heard, &mut self.since);
                self.progress.stage = Stage::Failed;
                Follows::Spent
            }
            Step::Breach => {
                let phase = self.progress.phase();
                self.progress
                    .keep(question, self.kind, heard, &mut self.since);
                self.progress.stage = Stage::Failed;
                Follows::Breach(phase)
            }
        }
    }

    /// Takes what was heard as `heard` does, and writes the next ask in place of another, where one is to be sent.
    /// Elsewhere that stays as it is. A response that is whole is then what `response` gives, and a breach what `breach`
    /// gives.
    pub fn hear_into(&mut self, heard: &Heard, ask: &mut Ask) -> Follows
        requires open { is_open (held self.old) ≡ true }
        ensures by_rules { (r : Reader) → Asking (held self.old) r →
            Shows (next_of result ask.new (held self.new) (heard_of heard.now)) (held self.new) (heard_of heard.now) (turn_on (held self.old).set r (heard_of heard.now)) }
        ensures kept { (r : Reader) → Asking (held self.old) r →
            (held self.new).since ≡ kept_after (held self.old).since r (turn_on (held self.old).set r (heard_of heard.now)) (exchange_of (held self.old).set r (heard_of heard.now)) }
        ensures setting { (held self.new).set ≡ (held self.old).set }
        ensures open { is_open (held self.new) ≡ asks_on (next_of result ask.new (held self.new) (heard_of heard.now)) }
        ensures resting { is_resting (held self.new) ≡ is_done (next_of result ask.new (held self.new) (heard_of heard.now)) }
        ensures left { asks_on (next_of result ask.new (held self.new) (heard_of heard.now)) ≡ true → left_of (held self.new) < left_of (held self.old) }
        ensures device { IsDevice (next_of result ask.new (held self.new) (heard_of heard.now)) → ⊥ }
        ensures spent { is_spent (next_of result ask.new (held self.new) (heard_of heard.now)) ≡ (is_bad (heard_block (held self.old).set.kind (held self.old).set.frames.reader (heard_of heard.now)) && nat_le 2 (held self.old).course.bad) }
        ensures stands { (es : List LinkEvent) → StandsFor (held self.old) es →
            StandsFor (held self.new) (es ++ Hears (heard_of heard.now) ∷ [])
            × Says (next_of result ask.new (held self.new) (heard_of heard.now)) (held self.old).set (heard_of heard.now) (standing_after (held self.old).set (es ++ Hears (heard_of heard.now) ∷ [])).turn }
        ensures whole { HasWhole result (held self.new).course.got }
    {
        self.take(heard, ask)
    }

    /// What follows a hearing, with the ask that was written.
    fn next(&self, follows: Follows, ask: Ask, heard: &Heard) -> Next
        requires whole { HasWhole follows (held self.now).course.got }
        ensures { result ≡ next_of follows ask (held self.now) (heard_of heard.now) }
    {
        match follows {
            Follows::Ask => Next::Ask(ask),
            Follows::Done => Next::Done(self.response()),
            Follows::Spent => Next::Failed(LinkEnd::Spent { bad: 3 }),
            Follows::Breach(phase) => Next::Failed(LinkEnd::Breach(self.breach(phase, heard))),
        }
    }

    /// The response of the command that was heard last, where it is whole.
    pub fn response(&self) -> Response
        requires whole { 2 ≤ length (held self.now).course.got }
        ensures value { result ≡ (held self.now).course.got }
    {
        self.progress.response()
    }

    /// Puts the response of the command that was heard last, where it is whole, in place of another.
    pub fn put_response(&self, response: &mut Response)
        requires whole { 2 ≤ length (held self.now).course.got }
        ensures value { response.new ≡ (held self.now).course.got }
    {
        response.set(self.progress.got.as_slice());
    }

    /// Takes what was heard after the last ask, where a command is open, and says what follows: the next ask, the
    /// response of the command, or how the link failed. It is `Spent` exactly at the third bad hearing since the
    /// toggle, a `Breach` at a block outside the rules, and never `Device`. At a breach nothing else changes.
    pub fn heard(&mut self, heard: &Heard) -> Next
        requires open { is_open (held self.old) ≡ true }
        ensures by_rules { (r : Reader) → Asking (held self.old) r →
            Shows result (held self.new) (heard_of heard.now) (turn_on (held self.old).set r (heard_of heard.now)) }
        ensures kept { (r : Reader) → Asking (held self.old) r →
            (held self.new).since ≡ kept_after (held self.old).since r (turn_on (held self.old).set r (heard_of heard.now)) (exchange_of (held self.old).set r (heard_of heard.now)) }
        ensures setting { (held self.new).set ≡ (held self.old).set }
        ensures open { is_open (held self.new) ≡ asks_on result }
        ensures resting { is_resting (held self.new) ≡ is_done result }
        ensures left { asks_on result ≡ true → left_of (held self.new) < left_of (held self.old) }
        ensures device { IsDevice result → ⊥ }
        ensures spent { is_spent result ≡ (is_bad (heard_block (held self.old).set.kind (held self.old).set.frames.reader (heard_of heard.now)) && nat_le 2 (held self.old).course.bad) }
        ensures stands { (es : List LinkEvent) → StandsFor (held self.old) es →
            StandsFor (held self.new) (es ++ Hears (heard_of heard.now) ∷ [])
            × Says result (held self.old).set (heard_of heard.now) (standing_after (held self.old).set (es ++ Hears (heard_of heard.now) ∷ [])).turn }
    {
        let mut ask = Ask::blank();
        let follows = self.hear_into(heard, &mut ask);
        self.next(follows, ask, heard)
    }

    /// Closes the link where no command is open and it neither failed nor was closed: asks with S(DESELECT).
    pub fn deselect(&mut self) -> Ask
        requires resting { is_resting (held self.old) ≡ true }
        ensures ask { result ≡ block_ask (held self.old).set.kind (held self.old).set.fwi Deselect }
        ensures closed { Closed (held self.new) }
        ensures setting { (held self.new).set ≡ (held self.old).set }
        ensures number { (held self.new).course.number ≡ (held self.old).course.number }
        ensures kept { (held self.new).since ≡ (held self.old).since }
    {
        let mut ask = Ask::blank();
        self.deselect_into(&mut ask);
        ask
    }

    /// Closes the link as `deselect` does, and writes what is asked in place of another ask.
    pub fn deselect_into(&mut self, ask: &mut Ask)
        requires resting { is_resting (held self.old) ≡ true }
        ensures ask { ask.new ≡ block_ask (held self.old).set.kind (held self.old).set.fwi Deselect }
        ensures closed { Closed (held self.new) }
        ensures setting { (held self.new).set ≡ (held self.old).set }
        ensures number { (held self.new).course.number ≡ (held self.old).course.number }
        ensures kept { (held self.new).since ≡ (held self.old).since }
    {
        self.progress.stage = Stage::Closed;
        put_block(self.kind, self.fwi, &Block::Deselect, ask);
    }

    /// The exchanges since the block number's last toggle, or since the link was opened, in order.
    pub fn since_toggle(&self) -> &[Kept]
        ensures exchanges { result.now ≡ (held self.now).since }
        ensures most { length result.now ≤ BETWEEN_TOGGLES }
    {
        self.since.as_slice()
    }

    /// How many of them were bad.
    pub fn bad(&self) -> u8
        ensures value { result ≡ (held self.now).course.bad }
    {
        self.progress.bad
    }

    /// The block number, 0 or 1.
    pub fn number(&self) -> u8
        ensures value { result ≡ number_bit (held self.now).course.number }
    {
        u8::from(self.progress.number)
    }
}
