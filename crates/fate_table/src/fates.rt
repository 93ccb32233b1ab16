//! The list of fates.
ghost use Rattle.std.specs.Prelude.{◌≡◌, ◌+◌, ◌≤◌, length, All, IfOk};
ghost use Rattle.toml.specs.View.{view};
ghost use Rattle.ep_base.specs.Air.Fates.{AreFates};
ghost use Rattle.rf_field.specs.Meaning.{IsRun, exchange_fates, run_of};
ghost use Rattle.doc_table.specs.Read.{Gives, GivesIfRoom};
ghost use Rattle.doc_table.specs.Section.{place};
ghost use Rattle.fate_table.specs.Fates.{fates_at, run, told_run};

use crate::tokens::fate_spelled;
use doc_table::{DocFault, DocKind, Path, Read, Section, TableEnd, counted, each, integer_in};
use ep_base::FATES;
use rf_field::FateRun;
use std::alloc::Global;
use toml::Value;

/// What becomes of the frames of a transaction's exchanges: the key `fates` of its table, whose section this is. An
/// integer and a text of the list are one run each, and an absent key is an empty list.
///
/// Errors: the first fault of the key, and `NoMemory`.
pub fn fates_of(alloc: Global, section: &Section) -> Result<Vec<FateRun>, TableEnd>
    requires { length section.now.path.now + 55 ≤ 96 }
    ensures value { GivesIfRoom (λ v. exchange_fates v.items) result (fates_at (place section.now)) }
    ensures runs { IfOk result (λ v. All IsRun v.items) }
    ensures bursts { IfOk result (λ v. AreFates (exchange_fates v.items)) }
{
    section.defaulted(alloc, "fates", &FateList, Vec::new(alloc))
}

// Reads the list of fates.
#[derive(Clone, Copy, Debug)]
struct FateList;

impl Read for FateList {
    ghost use Rattle.std.specs.Prelude.{List, map};
    ghost use Rattle.ep_base.specs.Air.Fates.{Fate};
    ghost use Rattle.rf_field.specs.Meaning.{run_of};
    ghost use Rattle.fate_table.specs.Fates.{runs};

    type Out = Vec<FateRun>;

    ghost Meaning = { List (List Fate) };

    ghost seen = { λ v. map run_of v.items };

    ghost reads = { λ _. runs };

    ghost room = { 7 };

    fn read(&self, alloc: Global, path: &Path, value: &Value) -> Result<Vec<FateRun>, TableEnd> {
        match value.as_array() {
            None => Err(TableEnd::Fault(path.fault(DocKind::WrongKind, 0))),
            Some(array) => {
                let few = counted(path, array, 0, FATES)?;
                each(alloc, path, few, &FateElement)
            }
        }
    }
}

// Reads an element of the list.
#[derive(Clone, Copy, Debug)]
struct FateElement;

impl Read for FateElement {
    ghost use Rattle.std.specs.Prelude.{List};
    ghost use Rattle.ep_base.specs.Air.Fates.{Fate};
    ghost use Rattle.rf_field.specs.Meaning.{run_of};
    ghost use Rattle.fate_table.specs.Fates.{run};

    type Out = FateRun;

    ghost Meaning = { List Fate };

    ghost seen = { run_of };

    ghost reads = { λ _. run };

    ghost room = { 0 };

    fn read(&self, _alloc: Global, path: &Path, value: &Value) -> Result<FateRun, TableEnd> {
        Ok(fate_run(path, value)?)
    }
}

fn fate_run(path: &Path, value: &Value) -> Result<FateRun, DocFault>
    ensures { Gives run_of result (run path.now (view value.now)) }
{
    if value.is_integer() {
        let count = integer_in(path, value, 1, 1_000_000)?;
        Ok(FateRun::Clean(count as u32))
    } else {
        told_run(path, value)
    }
}

fn told_run(path: &Path, value: &Value) -> Result<FateRun, DocFault>
    ensures { Gives run_of result (told_run path.now (view value.now)) }
{
    match value.as_str() {
        None => Err(path.fault(DocKind::WrongKind, 0)),
        Some(text) => match fate_spelled(text) {
            Some(fate) => Ok(FateRun::One(fate)),
            None => Err(path.fault(DocKind::BadValue, text.len() as i64)),
        },
    }
}
