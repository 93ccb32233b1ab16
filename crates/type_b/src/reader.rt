//! The reader's side: ATQB and ATTRIB.
ghost use Rattle.std.specs.Prelude.{◌≡◌, ◌<◌, IsSome, IfSome, None};
ghost use Rattle.ep_base.specs.Cards.CardLimits.{EndsInLimits};
ghost use Rattle.std.specs.Option.{IsNone};
ghost use Rattle.ep_base.specs.Air.Heard.{place_of, end_of};
ghost use Rattle.ep_base.specs.Cards.TypeB.{b_found};
ghost use Rattle.rf_frame.specs.Meaning.{heard_of, maybe_end, round_end_of};
ghost use Rattle.type_b.specs.Reader.{asked, turn, stage_at, New, place_at, IsNew};

use crate::messages::{attrib, parse_atqb};
use ep_base::{Buf, CardKind, Wave};
use rf_frame::{Activated, Ask, Heard, RoundEnd, answer_in, put_ask};
use std::marker::Model;

/// What was sent last, or that the round is over.
#[derive(Clone, Copy, Debug)]
enum Step {
    Woken,
    Attrib,
    Over,
}

/// A reader in a poll round with a card of Type B. `found` takes what is heard after WUPB; then, while the round goes on,
/// `ask` is the next frame, and `heard` takes what is heard after it.
#[derive(Debug, Drop)]
pub struct BReader {
    fsdi: u8,
    step: Step,
    pupi: [u8; 4],
    fsc: u16,
    fwi: u8,
}

impl Model for BReader {
    ghost use Rattle.type_b.specs.Reader.{ReaderState};

    ghost Value = { ReaderState };

    ghost use Rattle.type_b.specs.ReaderView.{reader_state, ReaderFits};

    ghost view = { reader_state };

    ghost invariant = { ReaderFits };
}

impl BReader {
    /// A reader with this FSDI, below 16, to which the answer to WUPB is still to come.
    pub fn open(fsdi: u8) -> BReader
        requires { fsdi < 16 }
        ensures fsdi { result.fsdi ≡ fsdi }
        ensures place { result.place ≡ New }
    {
        BReader {
            fsdi,
            step: Step::Woken,
            pupi: [0; 4],
            fsc: 16,
            fwi: 0,
        }
    }

    /// The round is over.
    fn over(&mut self, end: RoundEnd) -> Option<RoundEnd>
        ensures fsdi { self.new.fsdi ≡ self.old.fsdi }
        ensures place { self.new.place ≡ place_at None }
        ensures end { maybe_end result ≡ Some (round_end_of end) }
        ensures given { result ≡ Some end }
    {
        self.step = Step::Over;
        Some(end)
    }

    /// Takes what was heard after WUPB, once, before `ask` and `heard`. `None` says that the round goes on; otherwise the
    /// answer is its end: `Collision` where answers overlap, `Broken` where what was heard is no ATQB in a good frame,
    /// `Unsupported` where the card doesn't follow ISO/IEC 14443-4.
    pub fn found(&mut self, heard: &Heard) -> Option<RoundEnd>
        requires { IsNew self.old.place }
        ensures fsdi { self.new.fsdi ≡ self.old.fsdi }
        ensures place { self.new.place ≡ place_at (place_of (b_found (heard_of heard.now))) }
        ensures end { maybe_end result ≡ end_of (b_found (heard_of heard.now)) }
        ensures limits { IfSome result (λ e. EndsInLimits (round_end_of e)) }
        ensures going { IsNone result → IsSome (stage_at self.new.place) }
    {
        match answer_in(Wave::B, heard) {
            Ok(message) => match parse_atqb(message) {
                Ok(atqb) => {
                    if !atqb.iso4 {
                        return self.over(RoundEnd::Unsupported);
                    }
                    let pupi = atqb.pupi;
                    self.pupi = pupi;
                    self.fsc = atqb.fsc;
                    self.fwi = atqb.fwi;
                    self.step = Step::Attrib;
                    None
                }
                Err(_) => self.over(RoundEnd::Broken),
            },
            Err(end) => self.over(end),
        }
    }

    /// The next frame. The round goes on.
    pub fn ask(&self) -> Ask
        requires { IsSome (stage_at self.now.place) }
        ensures { result ≡ asked self.now }
    {
        let mut ask = Ask::blank();
        self.ask_into(&mut ask);
        ask
    }

    /// Writes the next frame in place of another. The round goes on.
    pub fn ask_into(&self, ask: &mut Ask)
        requires { IsSome (stage_at self.now.place) }
        ensures { ask.new ≡ asked self.now }
    {
        if let Step::Attrib = self.step {
            let message = attrib(&self.pupi, self.fsdi);
            put_ask(Wave::B, message.as_slice(), ask);
            return;
        }
        put_ask(Wave::B, &[], ask);
    }

    /// Takes what was heard after the frame of `ask`. The round goes on, and it ends here: as `Collision` where answers
    /// overlap, as `Broken` where what was heard isn't a good frame of Type B with CID 0 in its first byte, or with the
    /// card.
    pub fn heard(&mut self, heard: &Heard) -> Option<RoundEnd>
        requires { IsSome (stage_at self.old.place) }
        ensures fsdi { self.new.fsdi ≡ self.old.fsdi }
        ensures place { self.new.place ≡ place_at (place_of (turn self.old (heard_of heard.now))) }
        ensures end { maybe_end result ≡ end_of (turn self.old (heard_of heard.now)) }
        ensures limits { IfSome result (λ e. EndsInLimits (round_end_of e)) }
        ensures ends { IsSome result }
    {
        match answer_in(Wave::B, heard) {
            Ok(message) => {
                if message.len() == 0 || message[0] % 16 != 0 {
                    return self.over(RoundEnd::Broken);
                }
                let mut id = Buf::<10>::new();
                id.try_extend_from_slice(&self.pupi).unwrap();
                let fsc = self.fsc;
                let fwi = self.fwi;
                self.over(RoundEnd::Card(Activated {
                    kind: CardKind::B,
                    id,
                    fsc,
                    fwi,
                }))
            }
            Err(end) => self.over(end),
        }
    }
}
