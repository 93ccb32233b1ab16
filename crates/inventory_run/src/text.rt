//! The lines of an inventory.
ghost use Rattle.std.specs.Prelude.{◌≡◌, []};
ghost use Rattle.inventory_run.specs.Text.{inventory_line, tag_line};

use ep_base::Line;
use inventory::Tag;
use trace_io::{push_hex, push_number};

/// Writes the line of a transaction's inventory, with its newline: the numbers of lane and transaction, and how many cards
/// there are. `out` is empty, and the line fits.
pub fn inventory_line(lane: u8, txn: u8, count: u8, out: &mut Line)
    requires { out.old.bytes ≡ [] }
    ensures { out.new.bytes ≡ inventory_line lane txn count }
{
    out.push_str("inventory ");
    push_number(u64::from(lane), out);
    out.push_str(".");
    push_number(u64::from(txn), out);
    out.push_str(" tags=");
    push_number(u64::from(count), out);
    out.push_str("\n");
}

/// Writes the line of a card, with its newline: its UID, and its SAK in two digits. `out` is empty, and the line fits.
pub fn tag_line(tag: &Tag, out: &mut Line)
    requires { out.old.bytes ≡ [] }
    ensures { out.new.bytes ≡ tag_line tag.now }
{
    out.push_str("tag ");
    push_hex(tag.uid.as_slice(), out);
    out.push_str(" sak=");
    push_hex(&[tag.sak], out);
    out.push_str("\n");
}
