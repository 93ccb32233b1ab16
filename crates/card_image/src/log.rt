//! The log of the commands that were executed.
ghost use Rattle.std.specs.Prelude.{◌≡◌, ◌+◌, ◌<◌, [], ◌∷◌, ◌++◌, length, IfOk};

use apdu::Command;
use ep_base::NoMemory;
use std::alloc::Global;
use std::marker::Model;

/// A command that a card executed.
#[derive(Drop)]
pub struct Record {
    /// The card's number.
    pub card: u8,
    /// The command.
    pub command: Command,
}

impl Model for Record {
    ghost use Rattle.std.specs.Prelude.{ℕ, List};

    ghost Value = { ℕ × List ℕ };

    ghost view = { λ r. (r.card, r.command) };
}

/// What was executed, in order. It is seen as its records and the most records that it can have.
#[derive(Drop)]
pub struct CardLog {
    records: Vec<Record>,
    room: usize,
}

impl Model for CardLog {
    ghost use Rattle.std.specs.Prelude.{ℕ, List, ◌≤◌, vec_len, vec_capacity};

    ghost Value = { List (ℕ × List ℕ) × ℕ };

    ghost view = { λ l. (l.records.items, l.room) };

    ghost invariant = { λ l. (vec_len l.records ≤ l.room) × (l.room ≤ vec_capacity l.records) };
}

impl CardLog {
    /// A log without a record, which has room for so many.
    ///
    /// Errors: `NoMemory`.
    pub fn open(alloc: Global, room: usize) -> Result<CardLog, NoMemory>
        ensures { IfOk result (λ l. l ≡ ([], room)) }
    {
        match Vec::with_capacity(alloc, room) {
            Ok(records) => Ok(CardLog { records, room }),
            Err(_) => Err(NoMemory),
        }
    }

    /// The records in the order of execution.
    pub fn records(&self) -> &[Record]
        ensures { result.now ≡ self.now.0 }
    {
        &self.records
    }

    /// How many more records it has room for.
    pub fn spare(&self) -> usize
        ensures { result + length self.now.0 ≡ self.now.1 }
    {
        self.room - self.records.len()
    }

    // Appends a record.
    pub(crate) fn add(&mut self, entry: Record)
        requires { length self.old.0 < self.old.1 }
        ensures { self.new ≡ (self.old.0 ++ entry ∷ [], self.old.1) }
    {
        self.records.push(entry).unwrap();
    }
}
