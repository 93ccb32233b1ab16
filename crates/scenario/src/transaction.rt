//! The tables of a transaction of the document.
ghost use Rattle.std.specs.Prelude.{◌≡◌, ◌+◌, ◌≤◌, length};
ghost use Rattle.doc_table.specs.Read.{GivesIfRoom};
ghost use Rattle.doc_table.specs.Section.{place};
ghost use Rattle.scenario.specs.Plan.{transaction_at, scripts_at};

use crate::script::ScriptTable;
use card_table::{Card, cards_of};
use doc_table::{ListOf, Path, Read, Section, TableEnd};
use ep_base::{Buf, SCRIPTS};
use fate_table::{fates_of, presence_of};
use kernel_port::Script;
use rf_field::FateRun;
use std::alloc::Global;
use std::marker::Model;
use toml::Value;

/// What the tables of a transaction say.
#[derive(Drop)]
pub struct Transaction {
    /// The transaction type, one byte.
    pub txn_type: u8,
    /// The amount in minor units.
    pub amount: u64,
    /// The cards, numbered from 1.
    pub cards: Vec<Card>,
    /// The numbers of the cards that are present, for each round.
    pub presence: Vec<Buf<4>>,
    /// What becomes of the frames of each exchange.
    pub fates: Vec<FateRun>,
    /// The scripts in their order.
    pub scripts: Vec<Script>,
}

impl Model for Transaction {
    ghost use Rattle.std.specs.Prelude.{◌≤◌, All, length};
    ghost use Rattle.rf_field.specs.Meaning.{IsRun, exchange_fates};
    ghost use Rattle.rf_field.specs.Presences.{lists_of};
    ghost use Rattle.scenario.specs.Plan.{Transaction};
    ghost use Rattle.scenario.specs.Scripts.{AreScripts};

    ghost Value = { Transaction };

    ghost view = { λ t. record {
      txn_type = t.txn_type;
      amount = t.amount;
      cards = t.cards.items;
      presence = lists_of t.presence.items;
      fates = exchange_fates t.fates.items;
      scripts = t.scripts.items;
    } };

    ghost invariant = { λ t. (length t.cards.items ≤ 4) × All IsRun t.fates.items × AreScripts t.scripts.items };
}

const KEYS: [&str; 6] = ["type", "amount", "cards", "presence", "fates", "scripts"];

/// Reads a transaction's table.
#[derive(Clone, Copy, Debug)]
pub struct TransactionTable;

impl Read for TransactionTable {
    ghost use Rattle.scenario.specs.Plan.{Transaction as TransactionData, transaction};

    type Out = Transaction;

    ghost Meaning = { TransactionData };

    ghost seen = { λ t. t };

    ghost reads = { λ _. transaction };

    ghost room = { 55 };

    fn read(&self, alloc: Global, path: &Path, value: &Value) -> Result<Transaction, TableEnd> {
        let section = Section::of_value(path, value, &KEYS)?;
        transaction_at(alloc, &section)
    }
}

#[tactic(auto, unfolding(crate::specs::Plan::transaction_at))]
fn transaction_at(alloc: Global, section: &Section) -> Result<Transaction, TableEnd>
    requires { length section.now.path.now + 55 ≤ 96 }
    ensures { GivesIfRoom (λ t. t) result (transaction_at (place section.now)) }
{
    let txn_type = section.required_integer("type", 0, 255)?;
    let amount = section.required_integer("amount", 0, 999_999_999_999)?;
    let cards = cards_of(alloc, section)?;
    let presence = presence_of(alloc, section, cards.len())?;
    let fates = fates_of(alloc, section)?;
    let scripts = scripts_of(alloc, section)?;
    Ok(Transaction {
        txn_type: txn_type as u8,
        amount,
        cards,
        presence,
        fates,
        scripts,
    })
}

// The scripts.
fn scripts_of(alloc: Global, section: &Section) -> Result<Vec<Script>, TableEnd>
    requires { length section.now.path.now + 55 ≤ 96 }
    ensures { GivesIfRoom (λ v. v.items) result (scripts_at (place section.now)) }
{
    let tables = ListOf::tables(0, SCRIPTS, ScriptTable);
    section.defaulted(alloc, "scripts", &tables, Vec::new(alloc))
}
