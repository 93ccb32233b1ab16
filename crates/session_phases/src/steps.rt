//! What a transaction does between two exchanges.

use apdu::{Command, Response};
use block_reader::ReaderEnd;
use kernel_port::{Activation, End};
use poll_activate::{Poll, Rounds};
use rf_frame::Activated;
use select_rules::Candidates;
use tlv_arena::Arena;

/// What a command is sent for.
#[derive(Clone, Copy, Debug, PartialEq, Eq)]
pub enum Purpose {
    /// It asks for the directory.
    Directory,
    /// It is the final SELECT of a candidate.
    Final,
    /// It is the open kernel's.
    Kernel,
}

/// What is wished of the card that is presented.
#[derive(Clone, Copy, Debug, PartialEq, Eq)]
pub enum Wish {
    /// An answer to the selection's command, which is sent for this.
    Command(Purpose),
    /// That it is let go.
    Close {
        /// Whether a new Start B follows.
        again: bool,
    },
}

/// What the next exchange is of.
#[derive(Clone, Copy, Debug, PartialEq, Eq)]
pub enum Phase {
    /// The poll round that is held.
    Polling,
    /// What is wished of the card that is presented.
    Waiting(Wish),
}

/// A poll round of a Start B.
#[derive(Drop)]
pub struct Round {
    /// The reader in the round.
    pub poll: Poll,
    /// How many rounds may still follow it.
    pub left: u8,
    /// Whether a collision was said in this Start B.
    pub collided: bool,
}

/// How a Start B goes on after a round.
#[derive(Clone, Copy)]
pub enum Rolling<'c> {
    /// With another round.
    Round {
        /// How many rounds may still follow it.
        left: u8,
        /// Whether a collision was said in this Start B.
        collided: bool,
    },
    /// With this card, which was found.
    Card(&'c Activated),
    /// Not at all: the transaction has ended so.
    Ended(End),
}

/// What is kept of a presented card while a command waits for its answer.
#[derive(Drop)]
pub struct Selection {
    /// The command that was sent last.
    pub command: Command,
    /// The response that came last.
    pub response: Response,
    /// What the current candidate's kernel is given but for the answer to its final SELECT.
    pub given: Activation,
    /// The candidates after the current one.
    pub rest: Candidates,
}

/// What follows an exchange.
#[derive(Clone, Copy, Debug, PartialEq, Eq)]
pub enum Onward {
    /// Another exchange, which is of this. What is asked in it was written.
    Goes(Phase),
    /// The transaction has ended.
    Ended(End),
}

/// The reader's end of the last link, which stays in place for the next one.
#[derive(Drop)]
pub struct LastLink {
    /// The reader's end.
    pub end: ReaderEnd,
    /// Whether it was opened in this transaction.
    pub was_opened: bool,
}

/// What a session keeps in place.
#[derive(Drop)]
pub struct Presentation {
    /// The objects of the last directory.
    pub arena: Arena,
    /// The last link.
    pub link: LastLink,
    /// How the rounds of the last Start B ended.
    pub rounds: Rounds,
    /// The last poll round.
    pub round: Round,
    /// What is kept of the last presented card.
    pub selection: Selection,
}
