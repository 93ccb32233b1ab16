//! The lines of fields, one after another.
ghost use Rattle.std.specs.Prelude.{◌≡◌, ◌≤◌, All, map, length, OnOk, OnErr, IsErr};
ghost use Rattle.std.specs.Io.KnownBytes.{Appends};
ghost use Rattle.arrayvec.specs.ArrayVec.{array_vec_len};
ghost use Rattle.ep_base.specs.declared.limits.TheConstants.{LANES, TRANSACTIONS};
ghost use Rattle.ep_base.specs.Streams.Causes.{HasCause};
ghost use Rattle.ep_base.specs.Streams.Io.{AppendsPrefix};
ghost use Rattle.inventory.specs.Tags.{in_order};
ghost use Rattle.inventory_run.specs.Listing.{held, IsField};
ghost use Rattle.inventory_run.specs.Text.{inventory_line, tag_lines, inventory_text, lane_from, lanes_text};

use crate::text::{inventory_line, tag_line};
use arrayvec::ArrayVec;
use ep_base::{Line, Sink, SinkFailed, push_all};
use inventory::{CleanField, Tag, inventory};

/// Writes the inventories of all lanes, which are numbered from 1. This takes no memory.
///
/// Errors: the sink failed; a first part of the lines was written.
pub(crate) fn write_lanes<K: Sink>(
    lanes: Vec<Vec<CleanField>>,
    output: &mut K,
) -> Result<(), SinkFailed>
    requires few { length lanes.items ≤ LANES }
    requires short { All (λ fields. length fields.items ≤ TRANSACTIONS) lanes.items }
    requires each { All (λ fields. All IsField fields.items) lanes.items }
    ensures ok { OnOk result (Appends (K.written output.old) (K.written output.new) (lanes_text (map (λ fields. map held fields.items) lanes.items))) }
    ensures err { OnErr result (AppendsPrefix (K.written output.old) (K.written output.new) (lanes_text (map (λ fields. map held fields.items) lanes.items))) }
    ensures cause { HasCause (K.faults output.old) (K.faults output.new) (IsErr result) }
{
    let mut lane: u8 = 0;
    for fields in lanes {
        lane += 1;
        match write_lane(lane, fields, output) {
            Ok(()) => {}
            Err(_) => return Err(SinkFailed),
        }
    }
    Ok(())
}

// Writes the inventories of a lane, whose transactions are numbered from 1.
fn write_lane<K: Sink>(lane: u8, fields: Vec<CleanField>, output: &mut K) -> Result<(), SinkFailed>
    requires short { length fields.items ≤ TRANSACTIONS }
    requires each { All IsField fields.items }
    ensures ok { OnOk result (Appends (K.written output.old) (K.written output.new) (lane_from lane 1 (map held fields.items))) }
    ensures err { OnErr result (AppendsPrefix (K.written output.old) (K.written output.new) (lane_from lane 1 (map held fields.items))) }
    ensures cause { HasCause (K.faults output.old) (K.faults output.new) (IsErr result) }
{
    let mut txn: u8 = 0;
    for field in fields {
        txn += 1;
        match write_inventory(lane, txn, field, output) {
            Ok(()) => {}
            Err(_) => return Err(SinkFailed),
        }
    }
    Ok(())
}

// Writes the inventory of a transaction.
fn write_inventory<K: Sink>(
    lane: u8,
    txn: u8,
    field: CleanField,
    output: &mut K,
) -> Result<(), SinkFailed>
    requires { IsField field }
    ensures ok { OnOk result (Appends (K.written output.old) (K.written output.new) (inventory_text lane txn (held field))) }
    ensures err { OnErr result (AppendsPrefix (K.written output.old) (K.written output.new) (inventory_text lane txn (held field))) }
    ensures cause { HasCause (K.faults output.old) (K.faults output.new) (IsErr result) }
{
    let mut found = ArrayVec::new();
    find_all(field, &mut found);
    match write_count(lane, txn, found.len() as u8, output) {
        Ok(()) => write_tags(found.as_slice(), output),
        Err(_) => Err(SinkFailed),
    }
}

// Writes the line of a transaction's inventory.
fn write_count<K: Sink>(lane: u8, txn: u8, count: u8, output: &mut K) -> Result<(), SinkFailed>
    ensures ok { OnOk result (Appends (K.written output.old) (K.written output.new) (inventory_line lane txn count)) }
    ensures err { OnErr result (AppendsPrefix (K.written output.old) (K.written output.new) (inventory_line lane txn count)) }
    ensures cause { HasCause (K.faults output.old) (K.faults output.new) (IsErr result) }
{
    let mut line = Line::new();
    inventory_line(lane, txn, count, &mut line);
    push_all(output, line.as_str().as_bytes())
}

// Finds all cards of a field.
fn find_all(field: CleanField, found: &mut ArrayVec<Tag, 16>)
    requires field { IsField field }
    requires none { array_vec_len found.old ≡ 0 }
    ensures found { found.new.items ≡ in_order (held field) }
    ensures count { length found.new.items ≡ length (held field) }
    ensures few { length found.new.items ≤ 16 }
{
    let mut field = field;
    let _exchanges = inventory(&mut field, found).unwrap();
}

// Writes the lines of cards.
fn write_tags<K: Sink>(tags: &[Tag], output: &mut K) -> Result<(), SinkFailed>
    ensures ok { OnOk result (Appends (K.written output.old) (K.written output.new) (tag_lines tags.now)) }
    ensures err { OnErr result (AppendsPrefix (K.written output.old) (K.written output.new) (tag_lines tags.now)) }
    ensures cause { HasCause (K.faults output.old) (K.faults output.new) (IsErr result) }
{
    let mut rest = tags;
    'each: while let Some((tag, others)) = rest.split_first() {
        let mut line = Line::new();
        tag_line(tag, &mut line);
        match push_all(output, line.as_str().as_bytes()) {
            Ok(()) => {}
            Err(_) => return Err(SinkFailed),
        }
        rest = others;
    }
    Ok(())
}
