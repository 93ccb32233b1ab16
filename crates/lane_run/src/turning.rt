//! A turn: one exchange of one lane, and what is written of it.
ghost use Rattle.std.specs.Prelude.{◌≡◌, ◌≢◌, ◌≤◌, ◌+◌, ◌++◌, ℕ, true, false, not, Some, IfOk, OnOk, OnErr, IsErr, is_some, length};
ghost use Rattle.std.specs.Io.KnownBytes.{Appends};
ghost use Rattle.ep_base.specs.declared.limits.TheConstants.{FSDI};
ghost use Rattle.ep_base.specs.Streams.Causes.{HasCause};
ghost use Rattle.ep_base.specs.Cards.Field as plain;
ghost use Rattle.ep_base.specs.Streams.Io.{AppendsPrefix};
ghost use Rattle.ep_claim.specs.Text.WrittenText.{log_lines};
ghost use Rattle.ep_lanes.specs.Lanes.{count_of, has_open, is_live, lane_of, next_lane, next_of};
ghost use Rattle.ep_lanes.specs.Saying.{is_goes};
ghost use Rattle.ep_claim.specs.Lanes.LaneText.{after_text, opens};
ghost use Rattle.lane_run.specs.Played.{all_played, played};
ghost use Rattle.lane_run.specs.Shows.{Fits, FitsLane};
ghost use Rattle.ep_lanes.specs.Scripted.{held_of};
ghost use Rattle.lane_run.specs.Turned.{GoesOn, GoesOnPart, LaneCame, LaneCut, TurnCame, TurnCut, Wrote};
ghost use Rattle.lane_run.specs.Works.{jobs_of};

use crate::answering::Answers;
use crate::jobs::LaneJobs;
use crate::lines::write_log;
use crate::opening::begin_next;
use crate::writing::write_exchange;
use acquirer_config::Config;
use ep_base::{Sink, SinkFailed};
use ep_lanes::{EventList, Lanes, Turned};
use scenario::Scripts;

// Writes the log of a transaction that ended, and opens the lane's next one.
//
// Errors: the sink failed; a first part of the lines was written.
fn close_and_next<K: Sink, By, A: Answers<By>>(
    lane: u8,
    lanes: &mut Lanes<Scripts>,
    config: &Config,
    fsdi: u8,
    work: &mut LaneJobs,
    output: &mut K,
    events: &mut EventList,
) -> Result<(), SinkFailed>
    requires code { fsdi ≤ FSDI }
    requires live { is_live (held_of lanes.old) lane ≡ true }
    requires closed { has_open (held_of lanes.old) lane ≡ false }
    requires field { is_some work.old.field ≡ true }
    ensures ok { OnOk result ((f : plain.Field) → A.plays work.old.field f →
        Wrote A.plays config.now fsdi (lane_of (held_of lanes.new) lane) (played A.field_for work.new) (K.written output.old) (K.written output.new)
        (after_text (log_lines lane work.old.txn f.log) (opens fsdi lane (work.old.txn + 1) (jobs_of config.now (played A.field_for work.old))))) }
    ensures fits { OnOk result (FitsLane (lane_of (held_of lanes.new) lane) (played A.field_for work.new)) }
    ensures err { OnErr result ((f : plain.Field) → A.plays work.old.field f → AppendsPrefix (K.written output.old) (K.written output.new)
        (log_lines lane work.old.txn f.log ++ (opens fsdi lane (work.old.txn + 1) (jobs_of config.now (played A.field_for work.old))).text)) }
    ensures told { is_some (K.written output.new) ≡ is_some (K.written output.old) }
    ensures cause { HasCause (K.faults output.old) (K.faults output.new) (IsErr result) }
    ensures others { (k : ℕ) → k ≢ lane → lane_of (held_of lanes.new) k ≡ lane_of (held_of lanes.old) k }
    ensures count { count_of (held_of lanes.new) ≡ count_of (held_of lanes.old) }
    ensures order { (held_of lanes.new).order ≡ (held_of lanes.old).order }
{
    let Some(field) = work.take_field() else {
        unreachable!()
    };
    match write_log(lane, work.txn(), A::log(&field), output) {
        Ok(()) => begin_next::<K, By, A>(lane, lanes, config, fsdi, work, output, events),
        Err(_) => Err(SinkFailed),
    }
}

// After an exchange: the lane waits for its next one, or its transaction has ended, and the next one is opened.
//
// Errors: the sink failed; a first part of the lines was written.
fn go_on<K: Sink, By, A: Answers<By>>(
    lane: u8,
    lanes: &mut Lanes<Scripts>,
    config: &Config,
    fsdi: u8,
    turned: Turned,
    work: &mut LaneJobs,
    output: &mut K,
    events: &mut EventList,
) -> Result<(), SinkFailed>
    requires code { fsdi ≤ FSDI }
    requires live { is_live (held_of lanes.old) lane ≡ true }
    requires goes { has_open (held_of lanes.old) lane ≡ is_goes turned }
    requires field { is_some work.old.field ≡ true }
    ensures ok { OnOk result (GoesOn A.plays config.now fsdi lane (lane_of (held_of lanes.old) lane) (played A.field_for work.old) turned (lane_of (held_of lanes.new) lane) (played A.field_for work.new)
        (K.written output.old) (K.written output.new)) }
    ensures fits { OnOk result (FitsLane (lane_of (held_of lanes.new) lane) (played A.field_for work.new)) }
    ensures err { OnErr result (GoesOnPart A.plays config.now fsdi lane (lane_of (held_of lanes.old) lane) (played A.field_for work.old) turned (K.written output.old) (K.written output.new)) }
    ensures told { is_some (K.written output.new) ≡ is_some (K.written output.old) }
    ensures cause { HasCause (K.faults output.old) (K.faults output.new) (IsErr result) }
    ensures others { (k : ℕ) → k ≢ lane → lane_of (held_of lanes.new) k ≡ lane_of (held_of lanes.old) k }
    ensures count { count_of (held_of lanes.new) ≡ count_of (held_of lanes.old) }
    ensures order { (held_of lanes.new).order ≡ (held_of lanes.old).order }
{
    match turned {
        Turned::Goes => Ok(()),
        Turned::Ended(_) => close_and_next::<K, By, A>(
            lane, lanes, config, fsdi, work, output, events,
        ),
    }
}

// The turn of this lane, with what it has to do. Its events are written in place of those of the turn before. It says whether
// its exchange was answered; where it wasn't, nothing is written.
//
// Errors: the sink failed; a first part of the lines was written.
fn turn_lane<K: Sink, By, A: Answers<By>>(
    lane: u8,
    lanes: &mut Lanes<Scripts>,
    config: &Config,
    fsdi: u8,
    traced: bool,
    work: &mut LaneJobs,
    output: &mut K,
    answers: &mut A,
    events: &mut EventList,
) -> Result<bool, SinkFailed>
    requires code { fsdi ≤ FSDI }
    requires next { next_lane (held_of lanes.old) ≡ Some lane }
    requires opened { has_open (held_of lanes.old) lane ≡ true }
    requires field { is_some work.old.field ≡ true }
    ensures ok { IfOk result (λ made. LaneCame A.steps A.plays config.now traced fsdi lane
        (record { held = lane_of (held_of lanes.old) lane; work = played A.field_for work.old; probe = A.state answers.old; written = K.written output.old })
        (record { held = lane_of (held_of lanes.new) lane; work = played A.field_for work.new; probe = A.state answers.new; written = K.written output.new }) made) }
    ensures answered { IfOk result (λ made. A.has_failed (A.state answers.new) ≡ not made) }
    ensures fits { IfOk result (λ made. made ≡ true → FitsLane (lane_of (held_of lanes.new) lane) (played A.field_for work.new)) }
    ensures err { OnErr result (LaneCut A.steps A.plays config.now traced fsdi lane
        (record { held = lane_of (held_of lanes.old) lane; work = played A.field_for work.old; probe = A.state answers.old; written = K.written output.old })
        (A.state answers.new) (K.written output.new)) }
    ensures heard { OnErr result (A.has_failed (A.state answers.new) ≡ false) }
    ensures told { is_some (K.written output.new) ≡ is_some (K.written output.old) }
    ensures cause { HasCause (K.faults output.old) (K.faults output.new) (IsErr result) }
    ensures others { (k : ℕ) → k ≢ lane → lane_of (held_of lanes.new) k ≡ lane_of (held_of lanes.old) k }
    ensures count { count_of (held_of lanes.new) ≡ count_of (held_of lanes.old) }
    ensures order { next_of (held_of lanes.old) ≡ Some (lane, (held_of lanes.new).order) }
{
    events.clear();
    let Some(turned) = answers.turn(lane, lanes, work, events) else {
        return Ok(false);
    };
    let Some(made) = lanes.last() else {
        unreachable!()
    };
    match write_exchange(traced, made, work.txn(), &*events, output) {
        Ok(()) => {}
        Err(_) => return Err(SinkFailed),
    }
    match go_on::<K, By, A>(lane, lanes, config, fsdi, turned, work, output, events) {
        Ok(()) => Ok(true),
        Err(_) => Err(SinkFailed),
    }
}

/// Takes the next turn, which is one of this lane: it makes its exchange, and its trace line is written, where a trace is
/// wanted, and its events. Where the transaction ended its log follows, and the lane's next transaction is opened. Its events
/// are written in place of those of the turn before. It says whether the exchange was answered; where it wasn't, nothing is
/// written.
///
/// Errors: the sink failed; a first part of the lines was written.
pub(crate) fn take_turn<K: Sink, By, A: Answers<By>>(
    lane: u8,
    lanes: &mut Lanes<Scripts>,
    config: &Config,
    fsdi: u8,
    traced: bool,
    works: &mut [LaneJobs],
    output: &mut K,
    answers: &mut A,
    events: &mut EventList,
) -> Result<bool, SinkFailed>
    requires code { fsdi ≤ FSDI }
    requires next { next_lane (held_of lanes.old) ≡ Some lane }
    requires fits { Fits (held_of lanes.old) (all_played A.field_for works.old) }
    ensures ok { IfOk result (λ made. TurnCame A.steps A.plays config.now traced fsdi
        (record { lanes = held_of lanes.old; works = all_played A.field_for works.old; probe = A.state answers.old; written = K.written output.old })
        (record { lanes = held_of lanes.new; works = all_played A.field_for works.new; probe = A.state answers.new; written = K.written output.new }) made) }
    ensures answered { IfOk result (λ made. A.has_failed (A.state answers.new) ≡ not made) }
    ensures fits { IfOk result (λ made. made ≡ true → Fits (held_of lanes.new) (all_played A.field_for works.new)) }
    ensures err { OnErr result (TurnCut A.steps A.plays config.now traced fsdi
        (record { lanes = held_of lanes.old; works = all_played A.field_for works.old; probe = A.state answers.old; written = K.written output.old })
        (A.state answers.new) (K.written output.new)) }
    ensures heard { OnErr result (A.has_failed (A.state answers.new) ≡ false) }
    ensures told { is_some (K.written output.new) ≡ is_some (K.written output.old) }
    ensures cause { HasCause (K.faults output.old) (K.faults output.new) (IsErr result) }
    ensures length { length works.new ≡ length works.old }
{
    let work = &mut works[usize::from(lane) - 1];
    turn_lane::<K, By, A>(
        lane, lanes, config, fsdi, traced, work, output, answers, events,
    )
}
