//! How a lane's next transaction is opened.
ghost use Rattle.std.specs.Prelude.{◌≡◌, ◌≢◌, ◌≤◌, ◌+◌, ℕ, true, false, None, IfOk, OnOk, OnErr, IsErr, is_some};
ghost use Rattle.std.specs.Io.KnownBytes.{Appends};
ghost use Rattle.ep_base.specs.declared.limits.TheConstants.{FSDI};
ghost use Rattle.ep_base.specs.Streams.Causes.{HasCause};
ghost use Rattle.ep_base.specs.Streams.Io.{AppendsPrefix};
ghost use Rattle.ep_lanes.specs.Lanes.{count_of, has_open, is_live, lane_of};
ghost use Rattle.ep_claim.specs.Lanes.LaneText.{opens};
ghost use Rattle.lane_run.specs.Begun.{BegunLane, asked_first, begun_text};
ghost use Rattle.lane_run.specs.Played.{played, played_job};
ghost use Rattle.lane_run.specs.Shows.{FitsLane, ShowsLane};
ghost use Rattle.ep_lanes.specs.Scripted.{held_of};
ghost use Rattle.scenario.specs.Jobs.{job_of};
ghost use Rattle.lane_run.specs.Works.{jobs_of};

use crate::answering::Answers;
use crate::jobs::LaneJobs;
use crate::lines::write_events;
use crate::writing::write_closing;
use acquirer_config::Config;
use ep_base::{Sink, SinkFailed};
use ep_lanes::{EventList, Lanes, Turned};
use pre_processing::prepare;
use scenario::{Job, Scripts};

// Begins a transaction of a lane and writes its events so far, and its log where nothing is asked. It says whether an
// exchange is asked. The events are put into the list in place of others.
//
// Errors: the sink failed; a first part of this was written.
fn begin_one<K: Sink, By, A: Answers<By>>(
    lane: u8,
    lanes: &mut Lanes<Scripts>,
    config: &Config,
    fsdi: u8,
    work: &mut LaneJobs,
    job: Job,
    output: &mut K,
    events: &mut EventList,
) -> Result<bool, SinkFailed>
    requires code { fsdi ≤ FSDI }
    requires live { is_live (held_of lanes.old) lane ≡ true }
    requires closed { has_open (held_of lanes.old) lane ≡ false }
    requires none { work.old.field ≡ None }
    ensures ok { OnOk result (Appends (K.written output.old) (K.written output.new)
        (begun_text lane work.old.txn (job_of config.now (played_job A.field_for job)) (asked_first fsdi (job_of config.now (played_job A.field_for job))))) }
    ensures begun { IfOk result (BegunLane A.plays config.now fsdi (played_job A.field_for job) (lane_of (held_of lanes.new) lane)
        (played A.field_for work.old) (played A.field_for work.new)) }
    ensures err { OnErr result (AppendsPrefix (K.written output.old) (K.written output.new)
        (begun_text lane work.old.txn (job_of config.now (played_job A.field_for job)) (asked_first fsdi (job_of config.now (played_job A.field_for job))))) }
    ensures told { is_some (K.written output.new) ≡ is_some (K.written output.old) }
    ensures cause { HasCause (K.faults output.old) (K.faults output.new) (IsErr result) }
    ensures live { is_live (held_of lanes.new) lane ≡ true }
    ensures others { (k : ℕ) → k ≢ lane → lane_of (held_of lanes.new) k ≡ lane_of (held_of lanes.old) k }
    ensures count { count_of (held_of lanes.new) ≡ count_of (held_of lanes.old) }
    ensures order { (held_of lanes.new).order ≡ (held_of lanes.old).order }
{
    let Job {
        txn_type,
        amount,
        field,
        scripts,
    } = job;
    let prepared = prepare(config, txn_type, amount);
    events.clear();
    let turned = lanes.begin(lane, &prepared, scripts, fsdi, events);
    let txn = work.txn();
    match write_events(lane, txn, &*events, output) {
        Ok(()) => {}
        Err(_) => return Err(SinkFailed),
    }
    match write_closing::<K, By, A>(lane, txn, turned, &field, output) {
        Ok(()) => {}
        Err(_) => return Err(SinkFailed),
    }
    match turned {
        Turned::Goes => {
            work.put_field(field);
            Ok(true)
        }
        Turned::Ended(_) => Ok(false),
    }
}

/// Begins the next transactions of a live lane without an open one, one after another, until one asks an exchange. Of each
/// its events so far are written, and its log where it asks nothing. Where none is left the lane has ended. The events are
/// put into the list in place of others.
///
/// Errors: the sink failed; a first part of the lines was written.
pub(crate) fn begin_next<K: Sink, By, A: Answers<By>>(
    lane: u8,
    lanes: &mut Lanes<Scripts>,
    config: &Config,
    fsdi: u8,
    work: &mut LaneJobs,
    output: &mut K,
    events: &mut EventList,
) -> Result<(), SinkFailed>
    requires code { fsdi ≤ FSDI }
    requires live { is_live (held_of lanes.old) lane ≡ true }
    requires closed { has_open (held_of lanes.old) lane ≡ false }
    requires none { work.old.field ≡ None }
    ensures ok { OnOk result (Appends (K.written output.old) (K.written output.new)
        (opens fsdi lane (work.old.txn + 1) (jobs_of config.now (played A.field_for work.old))).text) }
    ensures shows { OnOk result (ShowsLane A.plays config.now fsdi (lane_of (held_of lanes.new) lane) (played A.field_for work.new)
        (opens fsdi lane (work.old.txn + 1) (jobs_of config.now (played A.field_for work.old))).going) }
    ensures fits { OnOk result (FitsLane (lane_of (held_of lanes.new) lane) (played A.field_for work.new)) }
    ensures err { OnErr result (AppendsPrefix (K.written output.old) (K.written output.new)
        (opens fsdi lane (work.old.txn + 1) (jobs_of config.now (played A.field_for work.old))).text) }
    ensures told { is_some (K.written output.new) ≡ is_some (K.written output.old) }
    ensures cause { HasCause (K.faults output.old) (K.faults output.new) (IsErr result) }
    ensures others { (k : ℕ) → k ≢ lane → lane_of (held_of lanes.new) k ≡ lane_of (held_of lanes.old) k }
    ensures count { count_of (held_of lanes.new) ≡ count_of (held_of lanes.old) }
    ensures order { (held_of lanes.new).order ≡ (held_of lanes.old).order }
{
    'each: while let Some(job) = work.next_job() {
        match begin_one::<K, By, A>(lane, lanes, config, fsdi, work, job, output, events) {
            Ok(true) => return Ok(()),
            Ok(false) => {}
            Err(_) => return Err(SinkFailed),
        }
    }
    lanes.finish(lane);
    Ok(())
}
