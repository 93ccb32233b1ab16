//! A document whole.
ghost use Rattle.std.specs.Prelude.{◌≡◌, map, IfOk, IfErr};
ghost use Rattle.toml.specs.View.{table_view};
ghost use Rattle.doc_table.specs.Read.{FailsSo};
ghost use Rattle.scenario.specs.Document.{Says};
ghost use Rattle.scenario.specs.Plan.{plan};
ghost use Rattle.scenario.specs.Scenario.{work_of, scenario_of};

use crate::document::{Document, plan};
use crate::job::{Job, open_lane};
use crate::transaction::Transaction;
use acquirer_config::{Config, DocFault};
use doc_table::TableEnd;
use ep_base::NoMemory;
use std::alloc::Global;
use std::marker::Model;
use toml::Table;
use trace_io::TraceLine;

/// Why bytes gave no scenario.
#[derive(Debug, Drop)]
pub enum DocEnd {
    /// They are no TOML document.
    NotToml,
    /// The first fault of the document.
    Fault(DocFault),
    /// Memory that was asked for isn't there.
    NoMemory,
}

/// What a document says, with all the memory that its transactions take: the configuration, the code of the reader's
/// frame size, which lanes make the first exchanges, the transactions of each lane in their order, and the trace of an
/// earlier run.
#[derive(Drop)]
pub struct Scenario {
    /// The configuration.
    pub config: Config,
    /// The code of the reader's frame size, 0 to 8.
    pub fsdi: u8,
    /// The numbers of the lanes that make the first exchanges, counted from 1: at most 4,096.
    pub turns: Vec<u8>,
    /// The lanes, 1 to 8, each with its transactions.
    pub lanes: Vec<Vec<Job>>,
    /// The trace of an earlier run, at most 65,536 exchanges, where the document has one.
    pub trace: Option<Vec<TraceLine>>,
}

impl Model for Scenario {
    ghost use Rattle.std.specs.Prelude.{map, option_map};
    ghost use Rattle.trace_io.specs.Meaning.{traced_of};
    ghost use Rattle.scenario.specs.Scenario.{Scenario as ScenarioData};

    ghost Value = { ScenarioData };

    ghost view = { λ s. record {
      config = s.config;
      fsdi = s.fsdi;
      turns = s.turns.items;
      lanes = map (λ lane. lane.items) s.lanes.items;
      trace = option_map (λ v. map traced_of v.items) s.trace;
    } };
}

impl Scenario {
    ghost use Rattle.scenario.specs.Document.{Answers};

    /// What the bytes of a document say.
    ///
    /// Errors: `NotToml` exactly where the bytes are no TOML document, `Fault` exactly where a table has a fault, with
    /// the first one in the tables' order, and `NoMemory`, which may come for every document.
    pub fn of_bytes(alloc: Global, bytes: &[u8]) -> Result<Scenario, DocEnd>
        ensures { Answers bytes.now result }
    {
        match toml::table_from_slice(alloc, bytes) {
            Ok(table) => match of_table(alloc, &table) {
                Ok(scenario) => Ok(scenario),
                Err(TableEnd::NoMemory) => Err(DocEnd::NoMemory),
                Err(TableEnd::Fault(fault)) => Err(DocEnd::Fault(fault)),
            },
            Err(error) => {
                if error.is_memory() {
                    Err(DocEnd::NoMemory)
                } else {
                    Err(DocEnd::NotToml)
                }
            }
        }
    }

    /// The scenario of a document, with all the memory that its transactions take.
    ///
    /// Errors: `NoMemory`.
    pub fn open(alloc: Global, document: Document) -> Result<Scenario, NoMemory>
        ensures { IfOk result (λ s. s ≡ scenario_of document) }
    {
        let Document {
            config,
            fsdi,
            turns,
            lanes,
            trace,
        } = document;
        let lanes = open_lanes(alloc, &config, lanes)?;
        Ok(Scenario {
            config,
            fsdi,
            turns,
            lanes,
            trace,
        })
    }
}

// What a document's root says.
fn of_table(alloc: Global, table: &Table) -> Result<Scenario, TableEnd>
    ensures says { IfOk result (λ s. Says (table_view table.now) s) }
    ensures fault { IfErr result (λ e. FailsSo e (plan (table_view table.now))) }
{
    let document = plan(alloc, table)?;
    let scenario = Scenario::open(alloc, document)?;
    Ok(scenario)
}

// Takes the memory of the transactions of all lanes.
fn open_lanes(
    alloc: Global,
    config: &Config,
    lanes: Vec<Vec<Transaction>>,
) -> Result<Vec<Vec<Job>>, NoMemory>
    ensures { IfOk result (λ v. map (λ jobs. jobs.items) v.items ≡ map (λ lane. map (work_of config.now) lane) (map (λ lane. lane.items) lanes.items)) }
{
    let mut all = Vec::new(alloc);
    for lane in lanes {
        let jobs = open_lane(alloc, config, lane)?;
        if all.push(jobs).is_err() {
            return Err(NoMemory);
        }
    }
    Ok(all)
}
