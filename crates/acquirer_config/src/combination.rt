//! A Combination, and its table in a document.
ghost use Rattle.std.specs.Prelude.{◌≡◌, ◌+◌, ◌≤◌, length};
ghost use Rattle.doc_table.specs.Read.{Gives};
ghost use Rattle.doc_table.specs.Section.{place};
ghost use Rattle.acquirer_config.specs.Combination.{combination_at};

use doc_table::{DocFault, Path, Read, Section, TableEnd};
use ep_base::Buf;
use std::alloc::Global;
use std::marker::Model;
use toml::Value;

/// An application that the acquirer accepts, the kernel that serves it, and its limits (EMV Book A). Amounts are in
/// minor units.
#[derive(Debug, Drop)]
pub struct Combination {
    /// The transaction type, one byte.
    pub txn_type: u8,
    /// The application identifier, 5 to 16 bytes.
    pub aid: Buf<16>,
    /// The Kernel ID, 1 to 16777215.
    pub kernel: u32,
    /// Status Check Support.
    pub status_check: bool,
    /// Zero Amount Allowed; absent and false differ.
    pub zero_allowed: Option<bool>,
    /// Reader Contactless Transaction Limit.
    pub limit: Option<u64>,
    /// Reader Contactless Floor Limit.
    pub floor: Option<u64>,
    /// Terminal Floor Limit.
    pub terminal_floor: Option<u64>,
    /// Reader CVM Required Limit.
    pub cvm: Option<u64>,
    /// Extended Selection Support.
    pub extended: bool,
    /// Terminal Transaction Qualifiers.
    pub ttq: Option<[u8; 4]>,
}

impl Model for Combination {
    ghost use Rattle.ep_rules.specs.EntryPoint.Configuration.{Combination};

    ghost Value = { Combination };

    ghost view = { λ c. record {
      txn_type = c.txn_type;
      aid = c.aid.items;
      kernel = c.kernel;
      status_check = c.status_check;
      zero_allowed = c.zero_allowed;
      limit = c.limit;
      floor = c.floor;
      terminal_floor = c.terminal_floor;
      cvm = c.cvm;
      extended = c.extended;
      ttq = c.ttq;
    } };
}

impl Combination {
    /// The same Combination once more, which takes no memory.
    pub fn copy(&self) -> Combination
        ensures { result ≡ self.now }
    {
        let mut aid = Buf::new();
        let _ = aid.try_extend_from_slice(self.aid.as_slice());
        Combination {
            txn_type: self.txn_type,
            aid,
            kernel: self.kernel,
            status_check: self.status_check,
            zero_allowed: self.zero_allowed,
            limit: self.limit,
            floor: self.floor,
            terminal_floor: self.terminal_floor,
            cvm: self.cvm,
            extended: self.extended,
            ttq: self.ttq,
        }
    }
}

const KEYS: [&str; 11] = [
    "type",
    "aid",
    "kernel",
    "status_check",
    "zero_allowed",
    "limit",
    "floor",
    "terminal_floor",
    "cvm",
    "extended",
    "ttq",
];

const MOST: u64 = 999_999_999_999;

/// Reads a Combination's table.
#[derive(Clone, Copy, Debug)]
pub struct CombinationTable;

impl Read for CombinationTable {
    ghost use Rattle.ep_rules.specs.EntryPoint.Configuration.{Combination as CombinationData};
    ghost use Rattle.acquirer_config.specs.Combination.{combination};

    type Out = Combination;

    ghost Meaning = { CombinationData };

    ghost seen = { λ c. c };

    ghost reads = { λ _. combination };

    ghost room = { 15 };

    fn read(&self, _alloc: Global, path: &Path, value: &Value) -> Result<Combination, TableEnd> {
        let section = Section::of_value(path, value, &KEYS)?;
        Ok(combination_at(&section)?)
    }
}

#[tactic(auto, unfolding(crate::specs::Combination::combination_at))]
fn combination_at(section: &Section) -> Result<Combination, DocFault>
    requires { length section.now.path.now + 15 ≤ 96 }
    ensures { result ≡ combination_at (place section.now) }
{
    let txn_type = section.required_integer("type", 0, 255)?;
    let aid = section.required_bytes("aid", 5)?;
    let kernel = section.required_integer("kernel", 1, 16_777_215)?;
    let status_check = section.truth_or("status_check", false)?;
    let zero_allowed = section.truth("zero_allowed")?;
    let limit = section.integer("limit", 0, MOST)?;
    let floor = section.integer("floor", 0, MOST)?;
    let terminal_floor = section.integer("terminal_floor", 0, MOST)?;
    let cvm = section.integer("cvm", 0, MOST)?;
    let extended = section.truth_or("extended", false)?;
    let ttq = section.array("ttq")?;
    Ok(Combination {
        txn_type: txn_type as u8,
        aid,
        kernel: kernel as u32,
        status_check,
        zero_allowed,
        limit,
        floor,
        terminal_floor,
        cvm,
        extended,
        ttq,
    })
}
