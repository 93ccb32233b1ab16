//! Readers of values: what stands at a key is read by a value that says how.
ghost use Rattle.std.specs.Prelude.{◌≡◌, ◌+◌, ◌-◌, ◌<◌, ◌≤◌, ◌^◌, ℕ, List, Result, length, map};
ghost use Rattle.toml.specs.Data.{Data};
ghost use Rattle.toml.specs.View.{view, items_view};
ghost use Rattle.doc_table.specs.declared.list.ElementKind.TheVariants.{Table, Text};
ghost use Rattle.doc_table.specs.Fault.{Fault};
ghost use Rattle.doc_table.specs.Read.{GivesIfRoom, each, list_of};

use crate::fault::TableEnd;
use crate::list::{ElementKind, items_of_kind};
use crate::path::Path;
use std::alloc::Global;
use toml::Value;

/// What reads a value of a document, or finds the first fault in it.
pub trait Read {
    /// What it reads.
    type Out: Drop;

    /// What that means.
    ghost Meaning: { Type 0 };

    ghost seen: { Self.Out → Meaning };

    /// The meaning of a value at a path, or its first fault.
    ghost reads: { Self → List ℕ → Data → Result Meaning Fault };

    /// By how many bytes the paths of its faults may be longer than the value's path.
    ghost room: { ℕ };

    /// Reads the value at a path.
    fn read(&self, alloc: Global, path: &Path, value: &Value) -> Result<Self::Out, TableEnd>
        requires { length path.now + room ≤ 96 }
        ensures { GivesIfRoom seen result (reads self.now path.now (view value.now)) };
}

/// Each value in turn, by the same reader. The path of the first one has the number 1.
pub fn each<R: Read>(
    alloc: Global,
    path: &Path,
    values: &[Value],
    reader: &R,
) -> Result<Vec<R::Out>, TableEnd>
    requires few { length values.now < 10 ^ 5 - 1 }
    requires room { length path.now + 7 + R.room ≤ 96 }
    ensures { GivesIfRoom (λ v. map R.seen v.items) result (each (R.reads reader.now) path.now 1 (items_view values.now)) }
{
    let mut list = Vec::new(alloc);
    for (i, value) in values.iter().enumerate() {
        list.push(reader.read(alloc, &path.element(i + 1), value)?)?;
    }
    Ok(list)
}

/// Reads an array of `least` to `most` elements of a kind, each by the same reader.
#[derive(Drop)]
pub struct ListOf<R> {
    /// What all elements have to be.
    pub kind: ElementKind,
    /// The least length.
    pub least: usize,
    /// The greatest length.
    pub most: usize,
    /// What reads an element.
    pub of: R,
    ghost few: { most < 10 ^ 5 - 1 },
}

impl<R> ListOf<R> {
    /// Reads an array of `least` to `most` tables.
    pub fn tables(least: usize, most: usize, of: R) -> ListOf<R>
        requires { most < 10 ^ 5 - 1 }
        ensures kind { result.kind ≡ Table }
        ensures least { result.least ≡ least }
        ensures most { result.most ≡ most }
        ensures of { result.of ≡ of }
    {
        ListOf {
            kind: ElementKind::Table,
            least,
            most,
            of,
        }
    }

    /// Reads an array of `least` to `most` texts.
    pub fn texts(least: usize, most: usize, of: R) -> ListOf<R>
        requires { most < 10 ^ 5 - 1 }
        ensures kind { result.kind ≡ Text }
        ensures least { result.least ≡ least }
        ensures most { result.most ≡ most }
        ensures of { result.of ≡ of }
    {
        ListOf {
            kind: ElementKind::Text,
            least,
            most,
            of,
        }
    }
}

impl<R: Read> Read for ListOf<R> {
    type Out = Vec<R::Out>;

    ghost Meaning = { List R.Meaning };

    ghost seen = { λ v. map R.seen v.items };

    ghost reads = { λ l. list_of l.kind l.least l.most (R.reads l.of) };

    ghost room = { 7 + R.room };

    fn read(&self, alloc: Global, path: &Path, value: &Value) -> Result<Vec<R::Out>, TableEnd> {
        let values = items_of_kind(path, value, self.kind, self.least, self.most)?;
        each(alloc, path, values, &self.of)
    }
}
