//! The fields of all transactions, each of whose cards answers bit by bit.
ghost use Rattle.std.specs.Prelude.{◌≡◌, All, map, IfOk};
ghost use Rattle.rf_field.specs.Fields.{field_of};
ghost use Rattle.scenario.specs.Scenario.{Work};
ghost use Rattle.inventory_run.specs.Listing.{held, IsField};
ghost use Rattle.inventory_run.specs.Tagged.{CanBeListed, work_tags};

use crate::tags::tags_of;
use ep_base::NoMemory;
use inventory::CleanField;
use scenario::Job;
use std::alloc::Global;

/// The fields of the lanes' transactions, with all the memory that they take.
///
/// Errors: `NoMemory`.
pub(crate) fn fields_of(
    alloc: Global,
    lanes: Vec<Vec<Job>>,
) -> Result<Vec<Vec<CleanField>>, NoMemory>
    requires { All (λ lane. All CanBeListed lane.items) lanes.items }
    ensures tags { IfOk result (λ v. map (λ fields. map held fields.items) v.items ≡ map (λ lane. map work_tags lane.items) lanes.items) }
    ensures each { IfOk result (λ v. All (λ fields. All IsField fields.items) v.items) }
{
    let mut fields = Vec::new(alloc);
    for lane in lanes {
        let of_lane = lane_fields(alloc, lane)?;
        let Ok(()) = fields.push(of_lane) else {
            return Err(NoMemory);
        };
    }
    Ok(fields)
}

// The fields of a lane's transactions.
fn lane_fields(alloc: Global, jobs: Vec<Job>) -> Result<Vec<CleanField>, NoMemory>
    requires { All CanBeListed jobs.items }
    ensures tags { IfOk result (λ v. map held v.items ≡ map work_tags jobs.items) }
    ensures each { IfOk result (λ v. All IsField v.items) }
{
    let mut fields = Vec::new(alloc);
    for job in jobs {
        let field = clean_field(alloc, &job)?;
        let Ok(()) = fields.push(field) else {
            return Err(NoMemory);
        };
    }
    Ok(fields)
}

// The field of a transaction's Type A cards.
fn clean_field(alloc: Global, job: &Job) -> Result<CleanField, NoMemory>
    requires { CanBeListed job.now }
    ensures tags { IfOk result (λ f. held f ≡ work_tags job.now) }
    ensures each { IfOk result IsField }
{
    let tags = tags_of(alloc, &job.field)?;
    CleanField::open(alloc, tags)
}
