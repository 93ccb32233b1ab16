//! A poll round, one frame at a time.
ghost use Rattle.std.specs.Prelude.{◌≡◌, ◌<◌, IsSome, IfSome, List, [], ◌∷◌, ◌++◌};
ghost use Rattle.ep_base.specs.Cards.CardLimits.{EndsInLimits};
ghost use Rattle.std.specs.Option.{IsNone};
ghost use Rattle.ep_base.specs.Air.Heard.{place_of, end_of, Heard as HeardData};
ghost use Rattle.ep_base.specs.Poll.Round.{Waking as AtWaking, WakingB as AtWakingB, round_hears, round_after};
ghost use Rattle.rf_frame.specs.Meaning.{heard_of, maybe_end, round_end_of};
ghost use Rattle.poll_activate.specs.Poll.{asked, asked_after, turn, StandsFor};

use ep_base::Wave;
use rf_frame::{Ask, Heard, RoundEnd, put_ask};
use std::marker::Model;
use type_a::AReader;
use type_b::BReader;

/// What was sent last, or that the round is over.
#[derive(Debug, Drop)]
enum Step {
    Waking,
    Halting,
    WakingB { woke: bool },
    InA(AReader),
    InB(BReader),
    Over,
}

/// A reader in a poll round. `ask` is the next frame, and `heard` takes what is heard after it, until the round ends. It
/// stands for the list of what was heard in the round so far.
#[derive(Debug, Drop)]
pub struct Poll {
    fsdi: u8,
    step: Step,
}

impl Model for Poll {
    ghost use Rattle.poll_activate.specs.Poll.{PollState};

    ghost Value = { PollState };

    ghost use Rattle.poll_activate.specs.PollView.{poll_state, PollFits};

    ghost view = { poll_state };

    ghost invariant = { PollFits };
}

impl Poll {
    /// A round with a reader of this FSDI, below 16, in which nothing was heard yet.
    pub fn open(fsdi: u8) -> Poll
        requires { fsdi < 16 }
        ensures fsdi { result.fsdi ≡ fsdi }
        ensures stage { result.stage ≡ Some AtWaking }
        ensures stands { StandsFor result [] }
    {
        Poll {
            fsdi,
            step: Step::Waking,
        }
    }

    /// The next frame, and whether the field is reset before it. The round goes on.
    pub fn ask(&self) -> Ask
        requires { IsSome self.now.stage }
        ensures asked { result ≡ asked self.now }
        ensures listed { (answers : List HeardData) → StandsFor self.now answers → result ≡ asked_after self.now.fsdi answers }
    {
        let mut ask = Ask::blank();
        self.ask_into(&mut ask);
        ask
    }

    /// Writes the next frame, and whether the field is reset before it, in place of another. The round goes on.
    pub fn ask_into(&self, ask: &mut Ask)
        requires { IsSome self.now.stage }
        ensures asked { ask.new ≡ asked self.now }
        ensures listed { (answers : List HeardData) → StandsFor self.now answers → ask.new ≡ asked_after self.now.fsdi answers }
    {
        match &self.step {
            Step::Waking => {
                put_ask(Wave::AShort, &[0x52], ask);
                ask.reset = true;
            }
            Step::Halting => put_ask(Wave::A, &[0x50, 0x00], ask),
            Step::WakingB { .. } => put_ask(Wave::B, &[0x05, 0x00, 0x08], ask),
            Step::InA(reader) => reader.ask_into(ask),
            Step::InB(reader) => reader.ask_into(ask),
            Step::Over => put_ask(Wave::B, &[], ask),
        }
    }

    /// Takes what was heard after WUPB.
    fn woke_b(&mut self, woke: bool, heard: &Heard) -> Option<RoundEnd>
        ensures fsdi { self.new.fsdi ≡ self.old.fsdi }
        ensures stage { self.new.stage ≡ place_of (round_hears (AtWakingB woke) (heard_of heard.now)) }
        ensures end { maybe_end result ≡ end_of (round_hears (AtWakingB woke) (heard_of heard.now)) }
        ensures limits { IfSome result (λ e. EndsInLimits (round_end_of e)) }
    {
        if woke {
            if heard.is_silent() {
                self.step = Step::InA(AReader::open(self.fsdi));
                return None;
            }
            self.step = Step::Over;
            return Some(RoundEnd::Collision);
        }
        if heard.is_silent() {
            self.step = Step::Over;
            return Some(RoundEnd::Empty);
        }
        let mut reader = BReader::open(self.fsdi);
        let end = reader.found(heard);
        self.step = Step::InB(reader);
        end
    }

    /// Takes what was heard after the last frame.
    fn takes(&mut self, heard: &Heard) -> Option<RoundEnd>
        requires { IsSome self.old.stage }
        ensures fsdi { self.new.fsdi ≡ self.old.fsdi }
        ensures stage { self.new.stage ≡ place_of (turn self.old (heard_of heard.now)) }
        ensures end { maybe_end result ≡ end_of (turn self.old (heard_of heard.now)) }
        ensures limits { IfSome result (λ e. EndsInLimits (round_end_of e)) }
    {
        match &mut self.step {
            Step::Waking => {
                self.step = if heard.is_silent() {
                    Step::WakingB { woke: false }
                } else {
                    Step::Halting
                };
                None
            }
            Step::Halting => {
                self.step = Step::WakingB { woke: true };
                None
            }
            Step::WakingB { woke } => {
                let woke = *woke;
                self.woke_b(woke, heard)
            }
            Step::InA(reader) => reader.heard(heard),
            Step::InB(reader) => reader.heard(heard),
            Step::Over => None,
        }
    }

    /// Takes what was heard after the frame of `ask`. The round goes on; `None` says that it still does, and otherwise the
    /// answer is its end: `Collision` where cards of both types answered or an awaited answer overlaps, `Empty` where none
    /// answered, `Broken` where an awaited answer is otherwise bad or malformed, `Unsupported` where the card doesn't follow
    /// ISO/IEC 14443-4, or the card.
    pub fn heard(&mut self, heard: &Heard) -> Option<RoundEnd>
        requires { IsSome self.old.stage }
        ensures fsdi { self.new.fsdi ≡ self.old.fsdi }
        ensures stage { self.new.stage ≡ place_of (turn self.old (heard_of heard.now)) }
        ensures end { maybe_end result ≡ end_of (turn self.old (heard_of heard.now)) }
        ensures limits { IfSome result (λ e. EndsInLimits (round_end_of e)) }
        ensures going { IsNone result → IsSome self.new.stage }
        ensures stands { (answers : List HeardData) → StandsFor self.old answers →
            StandsFor self.new (answers ++ heard_of heard.now ∷ []) }
        ensures listed { (answers : List HeardData) → StandsFor self.old answers →
            maybe_end result ≡ end_of (round_after (answers ++ heard_of heard.now ∷ [])) }
    {
        self.takes(heard)
    }
}
