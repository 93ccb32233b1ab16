//! The tables of a document's root and of its lanes.
ghost use Rattle.std.specs.Prelude.{◌≡◌, ◌≤◌, [], length, map, IfOk};
ghost use Rattle.toml.specs.View.{table_view};
ghost use Rattle.doc_table.specs.Read.{GivesIfRoom};
ghost use Rattle.doc_table.specs.Section.{place};
ghost use Rattle.scenario.specs.Plan.{lanes_at, plan_at, plan};

use crate::transaction::{Transaction, TransactionTable};
use crate::turns::turns_of;
use acquirer_config::Config;
use doc_table::{ListOf, Path, Read, Section, TableEnd};
use ep_base::{FSDI, LANES, TRANSACTIONS};
use std::alloc::Global;
use std::marker::Model;
use toml::{Table, Value};
use trace_io::TraceLine;
use trace_table::trace_of;

/// What the tables of a document say.
#[derive(Drop)]
pub struct Document {
    /// The configuration.
    pub config: Config,
    /// The code of the reader's frame size, 0 to 8.
    pub fsdi: u8,
    /// The numbers of the lanes that make the first exchanges, counted from 1.
    pub turns: Vec<u8>,
    /// The lanes, each with its transactions.
    pub lanes: Vec<Vec<Transaction>>,
    /// The trace of an earlier run, where there is one.
    pub trace: Option<Vec<TraceLine>>,
}

impl Model for Document {
    ghost use Rattle.std.specs.Prelude.{map, option_map};
    ghost use Rattle.trace_io.specs.Meaning.{traced_of};
    ghost use Rattle.scenario.specs.Plan.{Plan};

    ghost Value = { Plan };

    ghost view = { λ d. record {
      config = d.config;
      fsdi = d.fsdi;
      turns = d.turns.items;
      lanes = map (λ lane. lane.items) d.lanes.items;
      trace = option_map (λ v. map traced_of v.items) d.trace;
    } };
}

const LANE_KEYS: [&str; 1] = ["transactions"];

const ROOT_KEYS: [&str; 7] = [
    "version",
    "fsdi",
    "exponent",
    "combinations",
    "lanes",
    "turns",
    "trace",
];

// Reads a lane's table.
#[derive(Clone, Copy, Debug)]
struct LaneTable;

impl Read for LaneTable {
    ghost use Rattle.std.specs.Prelude.{List};
    ghost use Rattle.scenario.specs.Plan.{Transaction as TransactionData, lane};

    type Out = Vec<Transaction>;

    ghost Meaning = { List TransactionData };

    ghost seen = { λ v. v.items };

    ghost reads = { λ _. lane };

    ghost room = { 75 };

    fn read(
        &self,
        alloc: Global,
        path: &Path,
        value: &Value,
    ) -> Result<Vec<Transaction>, TableEnd> {
        let section = Section::of_value(path, value, &LANE_KEYS)?;
        let tables = ListOf::tables(1, TRANSACTIONS, TransactionTable);
        let transactions = section.required(alloc, "transactions", &tables)?;
        Ok(transactions)
    }
}

/// What the root's table says, or its first fault.
pub(crate) fn plan(alloc: Global, table: &Table) -> Result<Document, TableEnd>
    ensures { GivesIfRoom (λ d. d) result (plan (table_view table.now)) }
{
    let path = Path::root();
    let root = Section::open(&path, table, &ROOT_KEYS)?;
    plan_at(alloc, &root)
}

#[tactic(auto, unfolding(crate::specs::Plan::plan_at))]
fn plan_at(alloc: Global, root: &Section) -> Result<Document, TableEnd>
    requires { root.now.path.now ≡ [] }
    ensures { GivesIfRoom (λ d. d) result (plan_at (place root.now)) }
{
    let _version = root.required_integer("version", 1, 1)?;
    let fsdi = root.integer_or("fsdi", FSDI as u64, 0, FSDI as u64)?;
    let config = Config::of_table(alloc, root.table())?;
    let lanes = lanes_of(alloc, root)?;
    let turns = turns_of(alloc, root, lanes.len())?;
    let trace = trace_of(alloc, root)?;
    Ok(Document {
        config,
        fsdi: fsdi as u8,
        turns,
        lanes,
        trace,
    })
}

// The lanes, at most `LANES`.
fn lanes_of(alloc: Global, root: &Section) -> Result<Vec<Vec<Transaction>>, TableEnd>
    requires { root.now.path.now ≡ [] }
    ensures value { GivesIfRoom (λ v. map (λ lane. lane.items) v.items) result (lanes_at (place root.now)) }
    ensures few { IfOk result (λ v. length v.items ≤ LANES) }
{
    root.required(alloc, "lanes", &ListOf::tables(1, LANES, LaneTable))
}
