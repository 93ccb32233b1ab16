//! Transactions that are about to begin, with all the memory that they take.
ghost use Rattle.std.specs.Prelude.{◌≡◌, ◌+◌, ◌≤◌, length, map, IfOk, ◌*◌};
ghost use Rattle.ep_rules.specs.EntryPoint.Configuration.{count_of};
ghost use Rattle.ep_rules.specs.EntryPoint.Kernel.{steps_left};
ghost use Rattle.ep_rules.specs.EntryPoint.Bounds.{log_bound};
ghost use Rattle.scenario.specs.Scenario.{work_of};
ghost use Rattle.scenario.specs.Scripts.{AreScripts};

use crate::transaction::Transaction;
use acquirer_config::Config;
use card_table::plans_of;
use ep_base::{NAMED, NoMemory, SCRIPTS, STEPS};
use kernel_port::{Script, Scripts};
use rf_field::Field;
use std::alloc::Global;
use std::marker::Model;

/// A transaction that is about to begin: the field of its cards, in which no round was begun, and its kernels.
#[derive(Drop)]
pub struct Job {
    /// The transaction type, one byte.
    pub txn_type: u8,
    /// The amount in minor units.
    pub amount: u64,
    /// The field of its cards.
    pub field: Field,
    /// The kernels, none of which runs.
    pub scripts: Scripts,
}

impl Model for Job {
    ghost use Rattle.kernel_port.specs.Scripts.{scripted_of};
    ghost use Rattle.rf_field.specs.Fields.{field_of};
    ghost use Rattle.scenario.specs.Scenario.{Work};

    ghost Value = { Work };

    ghost view = { λ j. record { txn_type = j.txn_type; amount = j.amount; field = field_of j.field; scripts = scripted_of j.scripts } };
}

/// Takes the memory of a lane's transactions.
///
/// Errors: `NoMemory`.
pub(crate) fn open_lane(
    alloc: Global,
    config: &Config,
    lane: Vec<Transaction>,
) -> Result<Vec<Job>, NoMemory>
    ensures { IfOk result (λ v. v.items ≡ map (work_of config.now) lane.items) }
{
    let mut jobs = Vec::new(alloc);
    for transaction in lane {
        let job = open_job(alloc, config, transaction)?;
        if jobs.push(job).is_err() {
            return Err(NoMemory);
        }
    }
    Ok(jobs)
}

// Takes the memory of a transaction.
fn open_job(alloc: Global, config: &Config, transaction: Transaction) -> Result<Job, NoMemory>
    ensures { IfOk result (λ j. j ≡ work_of config.now transaction) }
{
    let Transaction {
        txn_type,
        amount,
        cards,
        presence,
        fates,
        scripts,
    } = transaction;
    let room = room_for(config, txn_type, &scripts);
    let plans = plans_of(alloc, cards)?;
    let field = Field::open(alloc, plans, presence, fates, room)?;
    Ok(Job {
        txn_type,
        amount,
        field,
        scripts: Scripts::of(scripts),
    })
}

// How many records a transaction's log has room for: one more than the most commands that it sends.
fn room_for(config: &Config, txn_type: u8, scripts: &[Script]) -> usize
    requires { AreScripts scripts.now }
    ensures { result ≡ log_bound (length scripts.now) (count_of txn_type config.now.list) (steps_left scripts.now) + 1 }
{
    let combinations = config
        .list()
        .iter()
        .filter(|c| c.txn_type == txn_type)
        .count();
    (1 + scripts.len()) * (1 + NAMED * combinations) + count_steps(scripts) + 1
}

// The steps of all scripts.
fn count_steps(scripts: &[Script]) -> usize
    requires { AreScripts scripts.now }
    ensures value { result ≡ steps_left scripts.now }
    ensures few { result ≤ SCRIPTS * STEPS }
{
    let mut count = 0usize;
    let mut rest = scripts;
    'each: while let Some((script, others)) = rest.split_first() {
        count += script.steps.len();
        rest = others;
    }
    count
}
