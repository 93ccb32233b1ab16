//! The configuration of a reader.
ghost use Rattle.std.specs.Prelude.{◌≡◌, ◌+◌, ◌<◌, ◌≤◌, ◌^◌, [], codes, length, IfSome};
ghost use Rattle.toml.specs.View.{table_view};
ghost use Rattle.ep_rules.specs.EntryPoint.Configuration.{Config as ConfigData, IsConfig, AreCombinations, count_of};
ghost use Rattle.doc_table.specs.Read.{GivesIfRoom, defaulted};
ghost use Rattle.doc_table.specs.Section.{place};
ghost use Rattle.acquirer_config.specs.Config.{crowd, config_at, combinations};

use crate::combination::{Combination, CombinationTable};
use doc_table::{DocKind, ListOf, Path, Section, TableEnd};
use ep_base::{COMBINATIONS, TYPE_COMBINATIONS};
use std::alloc::Global;
use std::marker::Model;
use toml::Table;

/// The exponent of the currency, and the Combinations in their order: at most 64, and at most 16 of one transaction
/// type.
#[derive(Debug, Drop)]
pub struct Config {
    exponent: u8,
    list: Vec<Combination>,
}

impl Model for Config {
    ghost Value = { ConfigData };

    ghost view = { λ c. record { exponent = c.exponent; list = c.list.items } };

    ghost invariant = { λ c. IsConfig (record { exponent = c.exponent; list = c.list.items }) };
}

impl Config {
    /// What the keys `exponent` and `combinations` of a document's root say, or the first fault of these two. Other
    /// keys of the root aren't looked at.
    #[tactic(auto, unfolding(crate::specs::Config::config_at))]
    pub fn of_table(alloc: Global, table: &Table) -> Result<Config, TableEnd>
        ensures { GivesIfRoom (λ c. c) result (config_at (record { path = []; members = table_view table.now })) }
    {
        let path = Path::root();
        let root = Section::unchecked(&path, table);
        let exponent = root.integer_or("exponent", 2, 0, 4)?;
        let list = combinations(alloc, &root)?;
        Ok(Config {
            exponent: exponent as u8,
            list,
        })
    }

    /// The configuration with this exponent and these Combinations.
    pub fn of_list(exponent: u8, list: Vec<Combination>) -> Config
        requires { IsConfig (record { exponent = exponent; list = list.items }) }
        ensures { result ≡ record { exponent = exponent; list = list.items } }
    {
        Config { exponent, list }
    }

    /// The exponent of the currency: one main unit is ten to this power of minor units.
    pub fn exponent(&self) -> u8
        ensures value { result ≡ self.now.exponent }
        ensures few { result ≤ 4 }
    {
        self.exponent
    }

    /// The Combinations in their order.
    pub fn list(&self) -> &[Combination]
        ensures value { result.now ≡ self.now.list }
        ensures limits { AreCombinations result.now }
    {
        &self.list
    }
}

/// The list of Combinations, and no more than sixteen of one type.
fn combinations(alloc: Global, root: &Section) -> Result<Vec<Combination>, TableEnd>
    requires { length root.now.path.now + 40 ≤ 96 }
    ensures { GivesIfRoom (λ v. v.items) result (defaulted [] combinations (codes "combinations") (place root.now)) }
{
    let tables = ListOf::tables(0, COMBINATIONS, CombinationTable);
    match root.optional(alloc, "combinations", &tables)? {
        None => Ok(Vec::new(alloc)),
        Some(list) => match crowd(&list) {
            None => Ok(list),
            Some(count) => Err(TableEnd::Fault(root.fault(
                "combinations",
                DocKind::TooMany,
                count as i64,
            ))),
        },
    }
}

/// How many Combinations the least type has that has more than sixteen.
fn crowd(list: &[Combination]) -> Option<usize>
    requires { length list.now < 2 ^ 63 }
    ensures value { result ≡ crowd list.now }
    ensures small { IfSome result (λ n. n < 2 ^ 63) }
{
    for txn_type in 0..256u16 {
        let count = count_of(txn_type, list);
        if count > TYPE_COMBINATIONS {
            return Some(count);
        }
    }
    None
}

fn count_of(txn_type: u16, list: &[Combination]) -> usize
    ensures value { result ≡ count_of txn_type list.now }
    ensures small { result ≤ length list.now }
{
    list.iter()
        .filter(|c| u16::from(c.txn_type) == txn_type)
        .count()
}
