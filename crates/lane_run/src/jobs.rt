//! What lanes have to do still.
ghost use Rattle.std.specs.Prelude.{◌≡◌, ◌+◌, ◌<◌, ◌≤◌, List, ◌∷◌, length, [], map, All, IfOk, OnOk, IfSome, OnSome, IsNone, IsSome, None, Some, is_some, option_map};
ghost use Rattle.rf_field.specs.Fields.{field_of};
ghost use Rattle.lane_run.specs.Works.{new_work};

use ep_base::{NoMemory, TRANSACTIONS};
use rf_field::Field;
use scenario::Job;
use std::alloc::Global;
use std::marker::Model;

/// What a lane has to do still: its transactions to come, the field of its open one, and the number of the last one that
/// was begun, 0 before the first. At most `TRANSACTIONS` transactions.
#[derive(Drop)]
pub struct LaneJobs {
    // The transactions to come, the next one last.
    left: Vec<Job>,
    field: Option<Field>,
    txn: u8,
}

impl Model for LaneJobs {
    ghost use Rattle.std.specs.Prelude.{◌+◌, ◌≤◌, length, option_map, reverse};
    ghost use Rattle.ep_base.specs.declared.limits.TheConstants.{TRANSACTIONS};
    ghost use Rattle.rf_field.specs.Fields.{field_of};
    ghost use Rattle.lane_run.specs.Works.{LaneWork};

    ghost Value = { LaneWork };

    ghost view = { λ w. record { left = reverse w.left.items; field = option_map field_of w.field; txn = w.txn } };

    ghost invariant = { λ w. w.txn + length w.left.items ≤ TRANSACTIONS };
}

impl LaneJobs {
    /// A lane before its first transaction, with these transactions, at most `TRANSACTIONS`. This takes no memory.
    pub fn of(jobs: Vec<Job>) -> LaneJobs
        requires { length jobs.items ≤ TRANSACTIONS }
        ensures { result ≡ new_work jobs.items }
    {
        let mut left = jobs;
        left.reverse();
        LaneJobs {
            left,
            field: None,
            txn: 0,
        }
    }

    /// The number of the last transaction that was begun.
    pub fn txn(&self) -> u8
        ensures { result ≡ self.now.txn }
    {
        self.txn
    }

    /// Takes the next transaction, which has the next number.
    pub fn next_job(&mut self) -> Option<Job>
        ensures next { IfSome result (λ job. (self.old.left ≡ job ∷ self.new.left) × (self.new.txn ≡ self.old.txn + 1)) }
        ensures none { IsNone result → (self.old.left ≡ []) × (self.new ≡ self.old) }
        ensures field { self.new.field ≡ self.old.field }
    {
        let job = self.left.pop()?;
        self.txn += 1;
        Some(job)
    }

    /// Takes the field of the open transaction.
    pub fn take_field(&mut self) -> Option<Field>
        ensures field { option_map field_of result ≡ self.old.field }
        ensures none { self.new.field ≡ None }
        ensures left { self.new.left ≡ self.old.left }
        ensures txn { self.new.txn ≡ self.old.txn }
    {
        self.field.take()
    }

    /// Holds the field of the open transaction.
    pub fn put_field(&mut self, field: Field)
        ensures field { self.new.field ≡ Some (field_of field) }
        ensures left { self.new.left ≡ self.old.left }
        ensures txn { self.new.txn ≡ self.old.txn }
    {
        self.field = Some(field);
    }
}

/// What all lanes have to do before their first transactions, of which each has at most `TRANSACTIONS`.
///
/// Errors: `NoMemory`.
pub fn works_of(alloc: Global, lanes: Vec<Vec<Job>>) -> Result<Vec<LaneJobs>, NoMemory>
    requires { All (λ lane. length lane.items ≤ TRANSACTIONS) lanes.items }
    ensures { IfOk result (λ v. v.items ≡ map (λ lane. new_work lane.items) lanes.items) }
{
    let mut works = Vec::new(alloc);
    for lane in lanes {
        if works.push(LaneJobs::of(lane)).is_err() {
            return Err(NoMemory);
        }
    }
    Ok(works)
}
