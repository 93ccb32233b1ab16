//! Values of the kinds that a document's keys have.
ghost use Rattle.std.specs.Prelude.{◌≡◌, ◌≤◌, ◌<◌, ◌^◌, IfOk, IfSome, option_map, length};
ghost use Rattle.toml.specs.View.{view, table_view};
ghost use Rattle.toml.specs.Data.{as_table, get_member};
ghost use Rattle.hex.specs.Hex.{decode_of};
ghost use Rattle.doc_table.specs.Read.{Gives, of_kind, integer_in, truth, byte_text, sized};

use crate::fault::{DocFault, DocKind};
use crate::path::Path;
use ep_base::Buf;
use toml::{Table, Value};

/// The value at a key.
pub fn value_at<'a>(table: &'a Table, key: &str) -> Option<&'a Value>
    ensures { option_map (λ v. view v.now) result ≡ get_member key.now (table_view table.now) }
{
    table.get(key)
}

/// A value that is a table.
pub fn table_in<'a>(path: &Path, value: &'a Value) -> Result<&'a Table, DocFault>
    ensures { Gives (λ t. table_view t.now) result (of_kind path.now (as_table (view value.now))) }
{
    match value.as_table() {
        None => Err(path.fault(DocKind::WrongKind, 0)),
        Some(table) => Ok(table),
    }
}

/// An integer from `low` to `high`.
pub fn integer_in(path: &Path, value: &Value, low: u64, high: u64) -> Result<u64, DocFault>
    ensures value { result ≡ integer_in low high path.now (view value.now) }
    ensures range { IfOk result (λ n. (low ≤ n) × (n ≤ high)) }
{
    match value.as_integer() {
        None => Err(path.fault(DocKind::WrongKind, 0)),
        Some(number) => match u64::try_from(number) {
            Ok(n) if low <= n && n <= high => Ok(n),
            _ => Err(path.fault(DocKind::BadValue, number)),
        },
    }
}

/// True or false.
pub fn truth(path: &Path, value: &Value) -> Result<bool, DocFault>
    ensures { result ≡ truth path.now (view value.now) }
{
    match value.as_bool() {
        None => Err(path.fault(DocKind::WrongKind, 0)),
        Some(truth) => Ok(truth),
    }
}

/// `low` to `high` bytes, as hexadecimal text.
pub fn byte_text<const N: usize>(
    path: &Path,
    value: &Value,
    low: usize,
    high: usize,
) -> Result<Buf<N>, DocFault>
    requires { high ≤ N }
    ensures value { Gives (λ b. b.items) result (byte_text low high path.now (view value.now)) }
    ensures range { IfOk result (λ b. (low ≤ length b.items) × (length b.items ≤ high)) }
{
    match value.as_str() {
        None => Err(path.fault(DocKind::WrongKind, 0)),
        Some(text) => match sized(text, low, high) {
            Some(bytes) => Ok(bytes),
            None => Err(path.fault(DocKind::BadValue, text.len() as i64)),
        },
    }
}

/// `N` bytes, as hexadecimal text.
pub fn byte_array<const N: usize>(path: &Path, value: &Value) -> Result<[u8; N], DocFault>
    requires { N < 2 ^ 32 }
    ensures { result ≡ byte_text N N path.now (view value.now) }
{
    let bytes = byte_text::<N>(path, value, N, N)?;
    match bytes.into_inner() {
        Ok(array) => Ok(array),
        Err(_) => unreachable!(),
    }
}

/// The bytes that a text spells, if they are `low` to `high`.
pub fn sized<const N: usize>(text: &str, low: usize, high: usize) -> Option<Buf<N>>
    requires { high ≤ N }
    ensures value { option_map (λ b. b.items) result ≡ sized low high (decode_of text.now) }
    ensures range { IfSome result (λ b. (low ≤ length b.items) × (length b.items ≤ high)) }
{
    let count = text.len() / 2;
    if count < low || high < count {
        return None;
    }
    let mut room = [0u8; N];
    let bytes = &mut room[..count];
    match hex::decode_to_slice(text, bytes) {
        Err(_) => None,
        Ok(()) => Buf::try_from(&room[..count]).ok(),
    }
}
