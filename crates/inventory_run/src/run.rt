//! The inventory of all lanes.
ghost use Rattle.std.specs.Prelude.{◌≡◌, ◌≤◌, All, map, length, IsErrOf};
ghost use Rattle.ep_base.specs.declared.limits.TheConstants.{LANES, TRANSACTIONS};
ghost use Rattle.ep_base.specs.Streams.Causes.{HasCause};
ghost use Rattle.inventory_run.specs.Listing.{Lists};
ghost use Rattle.inventory_run.specs.Tagged.{CanBeListed, work_tags};
ghost use Rattle.inventory_run.specs.Text.{lanes_text};

use crate::fields::fields_of;
use crate::writing::write_lanes;
use ep_base::Sink;
use scenario::Job;
use std::alloc::Global;

/// Why an inventory ended before all was written.
#[derive(Clone, Copy, Debug, PartialEq, Eq)]
pub enum ListingEnd {
    /// Memory that was asked for isn't there; nothing was written.
    NoMemory,
    /// The sink failed; a first part of the lines was written.
    SinkFailed,
}

/// Lists the Type A cards of each transaction, whether they are present or not: of all lanes, at most `LANES`, and of each
/// its transactions, at most `TRANSACTIONS`, both in rising order. All memory is taken before the first line is written.
///
/// Errors: `NoMemory`, and `SinkFailed` where the sink's count of faults rose.
pub fn inventory_lanes<K: Sink>(
    alloc: Global,
    lanes: Vec<Vec<Job>>,
    output: &mut K,
) -> Result<(), ListingEnd>
    requires few { length lanes.items ≤ LANES }
    requires short { All (λ lane. length lane.items ≤ TRANSACTIONS) lanes.items }
    requires cards { All (λ lane. All CanBeListed lane.items) lanes.items }
    ensures lists { Lists (lanes_text (map (λ lane. map work_tags lane.items) lanes.items)) (K.written output.old) (K.written output.new) result }
    ensures cause { HasCause (K.faults output.old) (K.faults output.new) (IsErrOf result ListingEnd.SinkFailed) }
{
    let Ok(fields) = fields_of(alloc, lanes) else {
        return Err(ListingEnd::NoMemory);
    };
    match write_lanes(fields, output) {
        Ok(()) => Ok(()),
        Err(_) => Err(ListingEnd::SinkFailed),
    }
}
