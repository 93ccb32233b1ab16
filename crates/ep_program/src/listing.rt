//! The inventory of a document's cards.
ghost use Rattle.std.specs.Prelude.{◌≡◌};
ghost use Rattle.std.specs.Io.KnownBytes.{IsAtEnd};
ghost use Rattle.ep_base.specs.Streams.Causes.{HasCause};
ghost use Rattle.ep_base.specs.Streams.Io.{Takes};
ghost use Rattle.ep_program.specs.Input.{IsTooLong};
ghost use Rattle.ep_program.specs.Inventory.{IsListable, Inventories, ListsCards};

use crate::input::read;
use crate::status::Status;
use ep_base::{INPUT, Sink, Source};
use inventory_run::{ListingEnd, inventory_lanes};
use scenario::Scenario;
use std::alloc::Global;

/// Reads a document and lists the Type A cards of its transactions.
pub fn inventory_document<S: Source, K: Sink>(
    alloc: Global,
    input: &mut S,
    output: &mut K,
) -> Status
    ensures inventories { Inventories (S.left input.old) (K.written output.old) (K.written output.new) result }
    ensures whole { result ≡ Status.Done → IsAtEnd (S.left input.new) }
    ensures given { Takes INPUT (S.left input.old) (S.left input.new) (IsTooLong result) }
    ensures read_cause { HasCause (S.faults input.old) (S.faults input.new) (result ≡ Status.ReadFault) }
    ensures write_cause { HasCause (K.faults output.old) (K.faults output.new) (result ≡ Status.WriteFault) }
{
    match read(alloc, input) {
        Ok(scenario) => list(alloc, scenario, output),
        Err(status) => status,
    }
}

// Lists the Type A cards of a document's transactions.
fn list<K: Sink>(alloc: Global, scenario: Scenario, output: &mut K) -> Status
    requires listable { IsListable scenario }
    ensures lists { ListsCards scenario (K.written output.old) (K.written output.new) result }
    ensures cause { HasCause (K.faults output.old) (K.faults output.new) (result ≡ Status.WriteFault) }
{
    let Scenario {
        config: _,
        fsdi: _,
        turns: _,
        lanes,
        trace: _,
    } = scenario;
    match inventory_lanes(alloc, lanes, output) {
        Ok(()) => Status::Done,
        Err(ListingEnd::NoMemory) => Status::NoMemory,
        Err(ListingEnd::SinkFailed) => Status::WriteFault,
    }
}
