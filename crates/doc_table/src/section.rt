//! A table of the document, key by key.
ghost use Rattle.std.specs.Prelude.{◌≡◌, [], ◌+◌, ◌-◌, ◌<◌, ◌≤◌, ◌^◌, length, vec_len, map, option_map, IfOk, IfSome, pos};
ghost use Rattle.std.specs.List.{list_any};
ghost use Rattle.std.specs.Cmp.Lexicographic.{pointwise};
ghost use Rattle.std.specs.Prelude.{nat_eq};
ghost use Rattle.toml.specs.Data.{get_member};
ghost use Rattle.toml.specs.View.{view, table_view};
ghost use Rattle.doc_table.specs.Read.{Gives, GivesIfRoom, table_of, optional, required, defaulted, integer_in, truth, byte_text, place_of, first_unknown};
ghost use Rattle.doc_table.specs.Path.{key_path, shown};
ghost use Rattle.doc_table.specs.declared.fault.DocKind.TheVariants.{Missing};
ghost use Rattle.doc_table.specs.Section.{place};

use crate::fault::{DocFault, DocKind, TableEnd};
use crate::path::Path;
use crate::reader::Read;
use crate::value::{self, value_at};
use ep_base::Buf;
use std::alloc::Global;
use toml::{Table, Value};

/// A table, and the path of its place.
#[derive(Drop)]
pub struct Section<'a> {
    path: &'a Path,
    table: &'a Table,
}

impl<'a> Section<'a> {
    /// A table with these keys alone.
    pub fn open(path: &'a Path, table: &'a Table, keys: &[&str]) -> Result<Section<'a>, DocFault>
        ensures value { Gives place result (place_of (map (λ k. k.now) keys.now) path.now (table_view table.now)) }
        ensures path { IfOk result (λ s. s.path.now ≡ path.now) }
    {
        match first_unknown(table, keys) {
            None => Ok(Section { path, table }),
            Some(number) => Err(path.fault(DocKind::UnknownKey, number as i64)),
        }
    }

    /// A value that is a table with these keys alone.
    pub fn of_value(
        path: &'a Path,
        value: &'a Value,
        keys: &[&str],
    ) -> Result<Section<'a>, DocFault>
        ensures value { Gives place result (table_of (map (λ k. k.now) keys.now) path.now (view value.now)) }
        ensures path { IfOk result (λ s. s.path.now ≡ path.now) }
    {
        match value.as_table() {
            None => Err(path.fault(DocKind::WrongKind, 0)),
            Some(table) => Section::open(path, table, keys),
        }
    }

    /// A table whose keys are looked at elsewhere.
    pub fn unchecked(path: &'a Path, table: &'a Table) -> Section<'a>
        ensures value { place result ≡ record { path = path.now; members = table_view table.now } }
        ensures path { result.path.now ≡ path.now }
    {
        Section { path, table }
    }
}

impl Section<'_> {
    /// The integer at a key, if there is one.
    pub fn integer(&self, key: &str, low: u64, high: u64) -> Result<Option<u64>, DocFault>
        requires { length self.now.path.now + length key.now < 96 }
        ensures value { result ≡ optional (integer_in low high) key.now (place self.now) }
        ensures range { IfOk result (λ found. IfSome found (λ n. (low ≤ n) × (n ≤ high))) }
    {
        match value_at(self.table, key) {
            None => Ok(None),
            Some(value) => Ok(Some(value::integer_in(&self.path.key(key), value, low, high)?)),
        }
    }

    /// The integer at a key, which has to be there.
    pub fn required_integer(&self, key: &str, low: u64, high: u64) -> Result<u64, DocFault>
        requires { length self.now.path.now + length key.now < 96 }
        ensures value { result ≡ required (integer_in low high) key.now (place self.now) }
        ensures range { IfOk result (λ n. (low ≤ n) × (n ≤ high)) }
    {
        match self.integer(key, low, high)? {
            Some(n) => Ok(n),
            None => Err(self.missing(key)),
        }
    }

    /// The integer at a key, or the default.
    pub fn integer_or(&self, key: &str, default: u64, low: u64, high: u64) -> Result<u64, DocFault>
        requires room { length self.now.path.now + length key.now < 96 }
        requires known { (low ≤ default) × (default ≤ high) }
        ensures value { result ≡ defaulted default (integer_in low high) key.now (place self.now) }
        ensures range { IfOk result (λ n. (low ≤ n) × (n ≤ high)) }
    {
        match self.integer(key, low, high)? {
            Some(n) => Ok(n),
            None => Ok(default),
        }
    }

    /// The truth at a key, if there is one.
    pub fn truth(&self, key: &str) -> Result<Option<bool>, DocFault>
        requires { length self.now.path.now + length key.now < 96 }
        ensures { result ≡ optional truth key.now (place self.now) }
    {
        match value_at(self.table, key) {
            None => Ok(None),
            Some(value) => Ok(Some(value::truth(&self.path.key(key), value)?)),
        }
    }

    /// The truth at a key, or the default.
    pub fn truth_or(&self, key: &str, default: bool) -> Result<bool, DocFault>
        requires { length self.now.path.now + length key.now < 96 }
        ensures { result ≡ defaulted default truth key.now (place self.now) }
    {
        Ok(self.truth(key)?.unwrap_or(default))
    }

    /// `low` to `N` bytes at a key, if there is a text.
    pub fn bytes<const N: usize>(&self, key: &str, low: usize) -> Result<Option<Buf<N>>, DocFault>
        requires { length self.now.path.now + length key.now < 96 }
        ensures { Gives (option_map (λ b. b.items)) result (optional (byte_text low N) key.now (place self.now)) }
    {
        match value_at(self.table, key) {
            None => Ok(None),
            Some(value) => Ok(Some(value::byte_text(&self.path.key(key), value, low, N)?)),
        }
    }

    /// `low` to `N` bytes at a key, which has to be there.
    pub fn required_bytes<const N: usize>(&self, key: &str, low: usize) -> Result<Buf<N>, DocFault>
        requires { length self.now.path.now + length key.now < 96 }
        ensures { Gives (λ b. b.items) result (required (byte_text low N) key.now (place self.now)) }
    {
        match self.bytes(key, low)? {
            Some(bytes) => Ok(bytes),
            None => Err(self.missing(key)),
        }
    }

    /// Exactly `N` bytes at a key, if there is a text.
    pub fn array<const N: usize>(&self, key: &str) -> Result<Option<[u8; N]>, DocFault>
        requires room { length self.now.path.now + length key.now < 96 }
        requires small { N < 2 ^ 32 }
        ensures { result ≡ optional (byte_text N N) key.now (place self.now) }
    {
        match value_at(self.table, key) {
            None => Ok(None),
            Some(value) => Ok(Some(value::byte_array(&self.path.key(key), value)?)),
        }
    }

    /// What a key has, if it is there.
    pub fn optional<R: Read>(
        &self,
        alloc: Global,
        key: &str,
        reader: &R,
    ) -> Result<Option<R::Out>, TableEnd>
        requires { length self.now.path.now + length key.now + 1 + R.room ≤ 96 }
        ensures { GivesIfRoom (option_map R.seen) result (optional (R.reads reader.now) key.now (place self.now)) }
    {
        match value_at(self.table, key) {
            None => Ok(None),
            Some(value) => Ok(Some(reader.read(alloc, &self.path.key(key), value)?)),
        }
    }

    /// What a key has, or the default.
    pub fn defaulted<R: Read>(
        &self,
        alloc: Global,
        key: &str,
        reader: &R,
        default: R::Out,
    ) -> Result<R::Out, TableEnd>
        requires { length self.now.path.now + length key.now + 1 + R.room ≤ 96 }
        ensures { GivesIfRoom R.seen result (defaulted (R.seen default) (R.reads reader.now) key.now (place self.now)) }
    {
        match self.optional(alloc, key, reader)? {
            Some(found) => Ok(found),
            None => Ok(default),
        }
    }

    /// What a key has, which has to be there.
    pub fn required<R: Read>(
        &self,
        alloc: Global,
        key: &str,
        reader: &R,
    ) -> Result<R::Out, TableEnd>
        requires { length self.now.path.now + length key.now + 1 + R.room ≤ 96 }
        ensures { GivesIfRoom R.seen result (required (R.reads reader.now) key.now (place self.now)) }
    {
        match self.optional(alloc, key, reader)? {
            Some(found) => Ok(found),
            None => Err(TableEnd::Fault(self.missing(key))),
        }
    }

    /// The table itself.
    pub fn table(&self) -> &Table
        ensures { table_view result.now ≡ (place self.now).members }
    {
        self.table
    }

    /// A fault at a key.
    pub fn fault(&self, key: &str, kind: DocKind, number: i64) -> DocFault
        requires { length self.now.path.now + length key.now < 96 }
        ensures { result ≡ record { kind = kind; path = shown (key_path self.now.path.now key.now); number = number } }
    {
        self.path.key(key).fault(kind, number)
    }

    fn missing(&self, key: &str) -> DocFault
        requires { length self.now.path.now + length key.now < 96 }
        ensures { result ≡ record { kind = Missing; path = shown (key_path self.now.path.now key.now); number = pos 0 } }
    {
        self.fault(key, DocKind::Missing, 0)
    }
}

/// The place of the first key of the table that the list lacks, counted from 1.
fn first_unknown(table: &Table, keys: &[&str]) -> Option<usize>
    ensures value { result ≡ first_unknown (map (λ k. k.now) keys.now) 1 (table_view table.now) }
    ensures small { IfSome result (λ n. n < 2 ^ 63) }
{
    let mut number = 0usize;
    for (name, _) in table.iter() {
        number += 1;
        if !is_listed(name.as_str(), keys) {
            return Some(number);
        }
    }
    None
}

fn is_listed(name: &str, keys: &[&str]) -> bool
    ensures { result ≡ list_any (pointwise nat_eq name.now) (map (λ k. k.now) keys.now) }
{
    for key in keys {
        if name == *key {
            return true;
        }
    }
    false
}
