//! Arrays, by the kind of their elements and their length.
ghost use Rattle.std.specs.Prelude.{◌≡◌, ◌≤◌, length, IfOk};
ghost use Rattle.toml.specs.View.{view, items_view};
ghost use Rattle.doc_table.specs.Read.{Gives, is_of, all_items, array_of, counted, items_of_kind};

use crate::fault::{DocFault, DocKind};
use crate::path::Path;
use toml::Value;

/// What all elements of an array have to be.
#[derive(Clone, Copy, Debug, PartialEq, Eq)]
pub enum ElementKind {
    /// Integers.
    Integer,
    /// Texts.
    Text,
    /// Arrays.
    Array,
    /// Tables.
    Table,
}

// Whether a value is of the kind.
fn is_of(kind: ElementKind, value: &Value) -> bool
    ensures { result ≡ is_of kind (view value.now) }
{
    match kind {
        ElementKind::Integer => value.is_integer(),
        ElementKind::Text => value.is_str(),
        ElementKind::Array => value.is_array(),
        ElementKind::Table => value.is_table(),
    }
}

/// Whether all values are of the kind.
pub fn all_of(kind: ElementKind, values: &[Value]) -> bool
    ensures { result ≡ all_items (is_of kind) (items_view values.now) }
{
    for value in values {
        if !is_of(kind, value) {
            return false;
        }
    }
    true
}

// An array whose elements are all of a kind.
fn array_of<'a>(path: &Path, value: &'a Value, kind: ElementKind) -> Result<&'a [Value], DocFault>
    ensures { Gives (λ vs. items_view vs.now) result (array_of kind path.now (view value.now)) }
{
    match value.as_array() {
        None => Err(path.fault(DocKind::WrongKind, 0)),
        Some(array) => {
            if all_of(kind, array) {
                Ok(array)
            } else {
                Err(path.fault(DocKind::WrongKind, 0))
            }
        }
    }
}

/// No more than `most` values, and no fewer than `least`.
#[tactic(auto, using(crate::proofs::Counts::item_count_view))]
pub fn counted<'a>(
    path: &Path,
    values: &'a [Value],
    least: usize,
    most: usize,
) -> Result<&'a [Value], DocFault>
    ensures value { Gives (λ vs. items_view vs.now) result (counted least most path.now (items_view values.now)) }
    ensures few { IfOk result (λ vs. length vs.now ≤ most) }
{
    let count = values.len();
    if most < count {
        return Err(path.fault(DocKind::TooMany, count as i64));
    }
    if count < least {
        return Err(path.fault(DocKind::BadValue, count as i64));
    }
    Ok(values)
}

/// An array of `least` to `most` elements of a kind.
pub fn items_of_kind<'a>(
    path: &Path,
    value: &'a Value,
    kind: ElementKind,
    least: usize,
    most: usize,
) -> Result<&'a [Value], DocFault>
    ensures value { Gives (λ vs. items_view vs.now) result (items_of_kind kind least most path.now (view value.now)) }
    ensures few { IfOk result (λ vs. length vs.now ≤ most) }
{
    counted(path, array_of(path, value, kind)?, least, most)
}
