//! The order in which a table's keys are looked at.
ghost use Rattle.std.specs.Prelude.{◌≡◌, true};
ghost use Rattle.toml.specs.View.{table_view};
ghost use Rattle.doc_table.specs.Order.{keys_ascend};

use toml::Table;

/// The keys of a table stand in byte order, each once. This is a law: it does nothing.
pub fn in_byte_order(table: &Table)
    ensures { keys_ascend (table_view table.now) ≡ true }
{
    let _entries = table.iter();
}
