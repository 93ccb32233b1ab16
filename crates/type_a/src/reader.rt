//! The reader's side: anticollision, selection and RATS, one frame at a time.
ghost use Rattle.std.specs.Prelude.{◌≡◌, ◌≤◌, ◌<◌, IsSome, IfSome, length};
ghost use Rattle.ep_base.specs.Cards.CardLimits.{EndsInLimits};
ghost use Rattle.std.specs.Option.{IsNone};
ghost use Rattle.ep_base.specs.Air.Heard.{place_of, end_of};
ghost use Rattle.ep_base.specs.Cards.TypeA.{sel as sel_of, bcc as bcc_of, is_level as is_level_of, Woken};
ghost use Rattle.rf_frame.specs.Meaning.{heard_of, maybe_end, round_end_of};
ghost use Rattle.type_a.specs.Reader.{asked, said, turn, IsSelect, IsComplete};

use crate::parse_ats;
use ep_base::{Buf, CardKind, Wave, bit};
use rf_frame::{Activated, Ask, Heard, RoundEnd, answer_in, put_ask};
use std::marker::Model;

/// What was sent last, or that the round is over.
#[derive(Clone, Copy, Debug)]
enum Step {
    Woken,
    Level,
    Select,
    Complete,
    Over,
}

/// A reader in a poll round with a card of Type A, from the second WUPA on. `ask` is the next frame, and `heard` takes what
/// is heard after it, until the round ends.
#[derive(Debug, Drop)]
pub struct AReader {
    fsdi: u8,
    step: Step,
    level: u8,
    uid: Buf<10>,
    part: [u8; 5],
}

impl Model for AReader {
    ghost use Rattle.type_a.specs.Reader.{ReaderState};

    ghost Value = { ReaderState };

    ghost use Rattle.type_a.specs.ReaderView.{reader_state, ReaderFits};

    ghost view = { reader_state };

    ghost invariant = { ReaderFits };
}

/// SEL of a cascade level.
pub(crate) fn sel(level: u8) -> u8
    requires { level ≤ 3 }
    ensures { result ≡ sel_of level }
{
    0x91 + 2 * level
}

/// The exclusive or of the first four bytes.
pub(crate) fn bcc(part: &[u8]) -> u8
    requires { 4 ≤ length part.now }
    ensures { result ≡ bcc_of part.now }
{
    (part[0] ^ part[1]) ^ (part[2] ^ part[3])
}

/// Whether these are four bytes and their exclusive or.
fn is_level(part: &[u8]) -> bool
    ensures { result ≡ is_level_of part.now }
{
    part.len() == 5 && part[4] == bcc(part)
}

impl AReader {
    /// A reader with this FSDI, below 16: WUPA is its next frame.
    pub fn open(fsdi: u8) -> AReader
        requires { fsdi < 16 }
        ensures fsdi { result.fsdi ≡ fsdi }
        ensures stage { result.stage ≡ Some Woken }
    {
        AReader {
            fsdi,
            step: Step::Woken,
            level: 1,
            uid: Buf::<10>::new(),
            part: [0; 5],
        }
    }

    /// The next frame. The round goes on.
    pub fn ask(&self) -> Ask
        requires { IsSome self.now.stage }
        ensures { result ≡ asked self.now }
    {
        let mut ask = Ask::blank();
        self.ask_into(&mut ask);
        ask
    }

    /// Writes the next frame in place of another. The round goes on.
    pub fn ask_into(&self, ask: &mut Ask)
        requires { IsSome self.now.stage }
        ensures { ask.new ≡ asked self.now }
    {
        match self.step {
            Step::Woken => put_ask(Wave::AShort, &[0x52], ask),
            Step::Level => put_ask(Wave::ABare, &[sel(self.level), 0x20], ask),
            Step::Select => {
                let mut message = Buf::<7>::new();
                message.push(sel(self.level));
                message.push(0x70);
                message.try_extend_from_slice(&self.part).unwrap();
                put_ask(Wave::A, message.as_slice(), ask)
            }
            Step::Complete => put_ask(Wave::A, &[0xe0, 16 * self.fsdi], ask),
            Step::Over => put_ask(Wave::AShort, &[], ask),
        }
    }

    /// The round is over.
    fn over(&mut self, end: RoundEnd) -> Option<RoundEnd>
        ensures fsdi { self.new.fsdi ≡ self.old.fsdi }
        ensures stage { self.new.stage ≡ None }
        ensures end { maybe_end result ≡ Some (round_end_of end) }
        ensures given { result ≡ Some end }
    {
        self.step = Step::Over;
        Some(end)
    }

    /// Takes a SAK.
    fn selected(&mut self, message: &[u8]) -> Option<RoundEnd>
        requires { IsSelect self.old.stage }
        ensures fsdi { self.new.fsdi ≡ self.old.fsdi }
        ensures stage { self.new.stage ≡ place_of (said self.old.stage message.now) }
        ensures end { maybe_end result ≡ end_of (said self.old.stage message.now) }
        ensures limits { IfSome result (λ e. EndsInLimits (round_end_of e)) }
    {
        if message.len() != 1 {
            return self.over(RoundEnd::Broken);
        }
        let sak = message[0];
        let part = self.part;
        let continues = self.level < 3 && part[0] == 0x88;
        if bit(sak, 0x04) == 1 {
            if !continues {
                return self.over(RoundEnd::Broken);
            }
            self.level += 1;
            self.uid.try_extend_from_slice(&part[1..4]).unwrap();
            self.step = Step::Level;
            return None;
        }
        if continues {
            return self.over(RoundEnd::Broken);
        }
        if bit(sak, 0x20) != 1 {
            return self.over(RoundEnd::Unsupported);
        }
        self.uid.try_extend_from_slice(&part[..4]).unwrap();
        self.step = Step::Complete;
        None
    }

    /// Takes an ATS.
    fn opened(&mut self, message: &[u8]) -> Option<RoundEnd>
        requires { IsComplete self.old.stage }
        ensures fsdi { self.new.fsdi ≡ self.old.fsdi }
        ensures stage { self.new.stage ≡ place_of (said self.old.stage message.now) }
        ensures end { maybe_end result ≡ end_of (said self.old.stage message.now) }
        ensures limits { IfSome result (λ e. EndsInLimits (round_end_of e)) }
    {
        match parse_ats(message) {
            Ok(ats) => {
                let mut id = Buf::<10>::new();
                id.try_extend_from_slice(self.uid.as_slice()).unwrap();
                self.over(RoundEnd::Card(Activated {
                    kind: CardKind::A,
                    id,
                    fsc: ats.fsc,
                    fwi: ats.fwi,
                }))
            }
            Err(_) => self.over(RoundEnd::Broken),
        }
    }

    /// Takes what an awaited answer says.
    fn takes(&mut self, message: &[u8]) -> Option<RoundEnd>
        ensures fsdi { self.new.fsdi ≡ self.old.fsdi }
        ensures stage { self.new.stage ≡ place_of (said self.old.stage message.now) }
        ensures end { maybe_end result ≡ end_of (said self.old.stage message.now) }
        ensures limits { IfSome result (λ e. EndsInLimits (round_end_of e)) }
    {
        match self.step {
            Step::Woken => {
                if message.len() != 2 {
                    return self.over(RoundEnd::Broken);
                }
                self.step = Step::Level;
                None
            }
            Step::Level => {
                if !is_level(message) {
                    return self.over(RoundEnd::Broken);
                }
                self.part.copy_from_slice(message);
                self.step = Step::Select;
                None
            }
            Step::Select => self.selected(message),
            Step::Complete => self.opened(message),
            Step::Over => self.over(RoundEnd::Broken),
        }
    }

    /// Takes what was heard after the frame of `ask`. The round goes on; `None` says that it still does, and otherwise the
    /// answer is its end: `Collision` where answers overlap, `Broken` where the awaited answer isn't a good frame of its
    /// wave or is malformed, `Unsupported` where the card doesn't follow ISO/IEC 14443-4, or the card.
    pub fn heard(&mut self, heard: &Heard) -> Option<RoundEnd>
        requires { IsSome self.old.stage }
        ensures fsdi { self.new.fsdi ≡ self.old.fsdi }
        ensures stage { self.new.stage ≡ place_of (turn self.old (heard_of heard.now)) }
        ensures end { maybe_end result ≡ end_of (turn self.old (heard_of heard.now)) }
        ensures limits { IfSome result (λ e. EndsInLimits (round_end_of e)) }
        ensures going { IsNone result → IsSome self.new.stage }
    {
        let wave = match self.step {
            Step::Woken | Step::Level => Wave::ABare,
            Step::Select | Step::Complete | Step::Over => Wave::A,
        };
        match answer_in(wave, heard) {
            Ok(message) => self.takes(message),
            Err(end) => self.over(end),
        }
    }
}
