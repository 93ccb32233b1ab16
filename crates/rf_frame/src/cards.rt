//! Cards as a reader finds them, and what a card does with a frame.
ghost use Rattle.std.specs.Prelude.{◌≡◌};
ghost use Rattle.rf_frame.specs.Meaning.{card_hear_of, reply_of};

use crate::Sent;
use arrayvec::ArrayVec;
use ep_base::{Buf, CardKind};
use std::marker::Model;

/// A card that was activated.
#[derive(Debug, PartialEq, Eq, Drop)]
pub struct Activated {
    /// Its kind.
    pub kind: CardKind,
    /// Its UID of 4, 7 or 10 bytes, or its PUPI of 4 bytes (ISO/IEC 14443-3).
    pub id: Buf<10>,
    /// The size of the frames that it takes, in bytes (ISO/IEC 14443-4).
    pub fsc: u16,
    /// Its frame waiting time integer (ISO/IEC 14443-4).
    pub fwi: u8,
}

impl Model for Activated {
    ghost use Rattle.ep_base.specs.Air.Heard.{Activated};

    ghost Value = { Activated };

    ghost view = { λ a. record { kind = a.kind; id = a.id.items; fsc = a.fsc; fwi = a.fwi } };

    ghost inverse = { λ a. record { kind = a.kind; id = record { items = a.id }; fsc = a.fsc; fwi = a.fwi } };
}

impl Activated {
    /// The same again. This takes no memory.
    pub fn copy(&self) -> Activated
        ensures { result ≡ self.now }
    {
        Activated {
            kind: self.kind,
            id: ArrayVec::try_from(self.id.as_slice()).unwrap(),
            fsc: self.fsc,
            fwi: self.fwi,
        }
    }
}

/// How a poll round ends.
#[derive(Debug, PartialEq, Eq, Drop)]
pub enum RoundEnd {
    /// No card answered.
    Empty,
    /// Cards of both types answered, or answers overlapped.
    Collision,
    /// The card doesn't follow ISO/IEC 14443-4.
    Unsupported,
    /// An awaited answer didn't come, was damaged, or was malformed.
    Broken,
    /// One card was activated.
    Card(Activated),
}

impl Default for RoundEnd {
    ghost use Rattle.rf_frame.specs.declared.cards.RoundEnd.TheVariants as variants;

    ghost is_default = { λ e. e ≡ variants.Empty };

    fn default() -> RoundEnd {
        RoundEnd::Empty
    }
}

impl RoundEnd {
    /// The same again. This takes no memory.
    pub fn copy(&self) -> RoundEnd
        ensures { result ≡ self.now }
    {
        match self {
            RoundEnd::Empty => RoundEnd::Empty,
            RoundEnd::Collision => RoundEnd::Collision,
            RoundEnd::Unsupported => RoundEnd::Unsupported,
            RoundEnd::Broken => RoundEnd::Broken,
            RoundEnd::Card(card) => RoundEnd::Card(card.copy()),
        }
    }
}

/// What a card does with a frame outside the block protocol.
#[derive(Debug, PartialEq, Eq, Drop)]
pub enum CardHear {
    /// It gives no answer.
    Mute,
    /// It answers.
    Send(Sent),
    /// It answers RATS or ATTRIB, and the block protocol begins.
    Opened {
        /// The answer.
        answer: Sent,
        /// The size of the frames that the reader takes, in bytes.
        fsd: u16,
    },
    /// The card is in the block protocol, and the frame has the wave of its kind, damaged or not.
    Passed,
}

impl CardHear {
    /// The same again. This takes no memory.
    pub fn copy(&self) -> CardHear
        ensures { result ≡ self.now }
    {
        match self {
            CardHear::Mute => CardHear::Mute,
            CardHear::Send(answer) => CardHear::Send(answer.copy()),
            CardHear::Opened { answer, fsd } => CardHear::Opened {
                answer: answer.copy(),
                fsd: *fsd,
            },
            CardHear::Passed => CardHear::Passed,
        }
    }
}

/// What a card does with a frame outside the block protocol, where what it sends was written in place.
#[derive(Clone, Copy, Debug, PartialEq, Eq)]
pub enum CardDoes {
    /// It gives no answer.
    Mute,
    /// It sends what was written.
    Send,
    /// It answers RATS or ATTRIB with what was written, and the block protocol begins.
    Opened {
        /// The size of the frames that the reader takes, in bytes.
        fsd: u16,
    },
    /// The card is in the block protocol, and the frame has the wave of its kind, damaged or not.
    Passed,
}

impl CardDoes {
    /// The same with what was written.
    pub fn with(self, answer: Sent) -> CardHear
        ensures value { card_hear_of result ≡ reply_of self answer }
    {
        match self {
            CardDoes::Mute => CardHear::Mute,
            CardDoes::Send => CardHear::Send(answer),
            CardDoes::Opened { fsd } => CardHear::Opened { answer, fsd },
            CardDoes::Passed => CardHear::Passed,
        }
    }
}
