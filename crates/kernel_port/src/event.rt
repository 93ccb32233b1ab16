//! The events of a transaction.
ghost use Rattle.std.specs.Prelude.{◌≡◌};
ghost use Rattle.kernel_port.specs.Event.{said_of};

use crate::Activation;
use apdu::{Command, Response};
use arrayvec::ArrayVec;
use ep_base::{Buf, CardKind, Message, OutcomeKind};
use pre_processing::PreparedOne;
use std::default::Default;

/// How a transaction ends.
#[derive(Clone, Copy, Debug, PartialEq, Eq)]
pub enum End {
    /// By the rules of Entry Point.
    Done,
    /// The link was spent.
    Link,
    /// The last poll round went by without a card.
    NoCard,
    /// A block came that the rules of a link don't allow.
    Breach,
}

/// One thing that a transaction reports.
#[derive(Drop)]
pub enum Event {
    /// It begins.
    Start {
        /// The transaction type, one byte.
        txn_type: u8,
        /// The amount in minor units.
        amount: u64,
    },
    /// What Pre-Processing found of one Combination.
    Pre {
        /// The Combination's number among those of the transaction type, from 1.
        number: u8,
        /// What was found.
        one: PreparedOne,
    },
    /// A message to the holder of the card.
    Message(Message),
    /// A card was activated.
    Card {
        /// Its kind.
        kind: CardKind,
        /// Its UID or PUPI.
        id: Buf<10>,
    },
    /// A command was answered.
    Apdu {
        /// The command.
        command: Command,
        /// The response to it.
        response: Response,
    },
    /// How many candidates there are.
    Candidates(u16),
    /// A kernel is activated.
    Activate(Activation),
    /// What was decided.
    Outcome(OutcomeKind),
    /// It has ended.
    End(End),
}

/// The events that one exchange adds, at most 24.
pub type EventList = ArrayVec<Event, 24>;

impl Default for Event {
    // What stands in the unused places of a list.
    fn default() -> Event {
        Event::Candidates(0)
    }
}
