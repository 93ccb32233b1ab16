//! The list of the lanes that make the first exchanges.
ghost use Rattle.std.specs.Prelude.{◌+◌, ◌≤◌, length};
ghost use Rattle.doc_table.specs.Read.{GivesIfRoom};
ghost use Rattle.doc_table.specs.Section.{place};
ghost use Rattle.scenario.specs.Turns.{turns_at};

use doc_table::{ElementKind, ListOf, Path, Read, Section, TableEnd, integer_in};
use ep_base::{LANES, TURNS};
use std::alloc::Global;
use toml::Value;

/// Which lanes make the first exchanges: the key `turns` of the root of a document with so many lanes, at most 8, whose
/// section this is. The numbers of lanes count from 1, and an absent key is an empty list.
///
/// Errors: the first fault of the key, and `NoMemory`.
pub(crate) fn turns_of(alloc: Global, section: &Section, lanes: usize) -> Result<Vec<u8>, TableEnd>
    requires room { length section.now.path.now + 13 ≤ 96 }
    requires few { lanes ≤ LANES }
    ensures { GivesIfRoom (λ v. v.items) result (turns_at lanes (place section.now)) }
{
    let numbers = ListOf {
        kind: ElementKind::Integer,
        least: 0,
        most: TURNS,
        of: LaneNumber { lanes: lanes as u8 },
    };
    section.defaulted(alloc, "turns", &numbers, Vec::new(alloc))
}

// Reads the number of a lane.
#[derive(Clone, Copy, Debug)]
struct LaneNumber {
    lanes: u8,
}

impl Read for LaneNumber {
    ghost use Rattle.std.specs.Prelude.{ℕ};
    ghost use Rattle.doc_table.specs.Read.{integer_in};

    type Out = u8;

    ghost Meaning = { ℕ };

    ghost seen = { λ n. n };

    ghost reads = { λ r. integer_in 1 r.lanes };

    ghost room = { 0 };

    fn read(&self, _alloc: Global, path: &Path, value: &Value) -> Result<u8, TableEnd> {
        let number = integer_in(path, value, 1, u64::from(self.lanes))?;
        Ok(number as u8)
    }
}
