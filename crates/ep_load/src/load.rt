//! The transactions of a load, on their lanes.
ghost use Rattle.std.specs.Prelude.{◌≡◌, ◌≤◌, ◌<◌, ◌∷◌, ◌++◌, ◌%◌, ◌-◌, [], length, map, replicate, min, IfOk};
ghost use Rattle.scenario.specs.Accepted.{IsAccepted};
ghost use Rattle.scenario.specs.Scenario.{scenario_of};
ghost use Rattle.ep_load.specs.Load.{transaction_drawn, lane_of, lanes_with, filled, generated};

use crate::cards::card_drawn;
use crate::draws::{Draws, Generator};
use crate::fates::fates_drawn;
use crate::memory::list_of;
use crate::scripts::scripts_drawn;
use crate::terms::terms;
use ep_base::NoMemory;
use scenario::{Document, Scenario, Transaction};
use std::alloc::Global;

/// The load of this seed with `count` transactions, from 1 to 400, on at most eight lanes.
///
/// Errors: `NoMemory`.
pub fn generate(alloc: Global, seed: u32, count: u16) -> Result<Scenario, NoMemory>
    requires { (1 ≤ count) × (count ≤ 400) }
    ensures scene { IfOk result (λ s. s ≡ scenario_of (generated seed count)) }
    ensures accepted { IsAccepted (generated seed count) }
{
    Scenario::open(alloc, plan(alloc, seed, count)?)
}

/// The load as a document, before its fields are opened. `generate` opens them, and asks for the count that a load has.
///
/// Errors: `NoMemory`.
pub fn plan(alloc: Global, seed: u32, count: u16) -> Result<Document, NoMemory>
    ensures { IfOk result (λ d. d ≡ generated seed count) }
{
    Ok(Document {
        config: terms(alloc)?,
        fsdi: 8,
        turns: Vec::new(alloc),
        lanes: filled_lanes(alloc, seed, count)?,
        trace: None,
    })
}

// The transaction with this number.
fn transaction_drawn(alloc: Global, number: u32, draws: &Draws) -> Result<Transaction, NoMemory>
    ensures { IfOk result (λ t. t ≡ transaction_drawn number draws.now) }
{
    let cards = list_of(alloc, card_drawn(alloc, number, draws)?)?;
    let fates = fates_drawn(alloc, draws)?;
    let scripts = scripts_drawn(alloc, draws)?;
    Ok(Transaction {
        txn_type: 0,
        amount: 100 + u64::from(draws.amount),
        cards,
        presence: Vec::new(alloc),
        fates,
        scripts,
    })
}

// So many lanes without transactions.
fn empty_lanes(alloc: Global, count: u16) -> Result<Vec<Vec<Transaction>>, NoMemory>
    ensures lanes { IfOk result (λ v. map (λ lane. lane.items) v.items ≡ replicate count []) }
    ensures count { IfOk result (λ v. length v.items ≡ count) }
{
    let mut lanes = Vec::new(alloc);
    for _lane in 0..count {
        if lanes.push(Vec::new(alloc)).is_err() {
            return Err(NoMemory);
        }
    }
    Ok(lanes)
}

// The lanes with one more transaction.
fn append(
    lanes: Vec<Vec<Transaction>>,
    place: usize,
    transaction: Transaction,
) -> Result<Vec<Vec<Transaction>>, NoMemory>
    requires { place < length lanes.items }
    ensures lanes { IfOk result (λ v. map (λ lane. lane.items) v.items ≡ lanes_with place transaction (map (λ lane. lane.items) lanes.items)) }
    ensures count { IfOk result (λ v. length v.items ≡ length lanes.items) }
{
    let mut lanes = lanes;
    match lanes[place].push(transaction) {
        Ok(()) => Ok(lanes),
        Err(_) => Err(NoMemory),
    }
}

// All transactions, each at the end of its lane.
fn filled_lanes(alloc: Global, seed: u32, count: u16) -> Result<Vec<Vec<Transaction>>, NoMemory>
    ensures { IfOk result (λ v. map (λ lane. lane.items) v.items ≡ filled count 1 seed (replicate (min count 8) [])) }
{
    let mut generator = Generator::of(seed);
    let mut lanes = empty_lanes(alloc, count.min(8))?;
    for done in 0..count {
        let draws = generator.draws();
        let transaction = transaction_drawn(alloc, u32::from(done) + 1, &draws)?;
        lanes = append(lanes, usize::from(done % 8), transaction)?;
    }
    Ok(lanes)
}
