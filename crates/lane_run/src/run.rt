//! The report of all lanes.
ghost use Rattle.std.specs.Prelude.{◌≡◌, ◌≤◌, All, length, IfOk, OnOk, OnErr, IsErr, is_some};
ghost use Rattle.ep_base.specs.Streams.Causes.{HasCause};
ghost use Rattle.ep_base.specs.Streams.Io.{AppendsPrefix};
ghost use Rattle.ep_base.specs.declared.limits.TheConstants.{FSDI, LANES};
ghost use Rattle.ep_lanes.specs.Lanes.{new_lanes};
ghost use Rattle.ep_claim.specs.Lanes.WholeRun.{opening_text};
ghost use Rattle.lane_run.specs.Made.{TurnsCut, TurnsMade};
ghost use Rattle.lane_run.specs.Played.{all_played};
ghost use Rattle.lane_run.specs.Reports.{IsNewWork, LanesOpened, Reports, ReportsPart, RunsPart, RunsTo};
ghost use Rattle.lane_run.specs.Shows.{Fits};
ghost use Rattle.ep_lanes.specs.Scripted.{held_of};
ghost use Rattle.lane_run.specs.Works.{all_jobs};

use crate::answering::{Answers, ByFields};
use crate::jobs::LaneJobs;
use crate::opening::begin_next;
use crate::turning::take_turn;
use acquirer_config::Config;
use ep_base::{
    COMMAND_EXCHANGES, LANES, PAIRS, SCRIPTS, START_EXCHANGES, STEPS, Sink, SinkFailed,
    TRANSACTIONS,
};
use ep_lanes::{EventList, Lanes, Probe};
use scenario::Scripts;

// The most Start Bs of one transaction: one more than its scripts.
const STARTS: usize = SCRIPTS + 1;

// The most commands of one transaction: those of its Start Bs, and those of its scripts.
const COMMANDS: usize = STARTS * (1 + PAIRS) + SCRIPTS * STEPS;

// The most exchanges of one transaction: those of its most commands, and of its most Start Bs.
const MOST_OF_ONE: usize = COMMAND_EXCHANGES * COMMANDS + STARTS * START_EXCHANGES;

// The most exchanges of all lanes, each of so many transactions.
const MOST_EXCHANGES: u64 = (LANES * TRANSACTIONS * MOST_OF_ONE) as u64;

/// The report of at most `LANES` lanes as they run over their fields, with this probe: first the lanes are opened in rising
/// order, and then each turn makes one exchange of one lane, until no lane has one left. Where `traced`, the trace line of each
/// exchange comes before its events.
///
/// The lanes are new, and what each has to do are at most `TRANSACTIONS` transactions within this project's limits; the reader's
/// frame size code is at most 8. Nothing here takes memory.
///
/// Errors: the sink has failed; a first part of the report was written.
pub fn report_lanes<K: Sink, P: Probe>(
    lanes: &mut Lanes<Scripts>,
    config: &Config,
    fsdi: u8,
    traced: bool,
    works: &mut [LaneJobs],
    output: &mut K,
    probe: &mut P,
) -> Result<(), SinkFailed>
    requires code { fsdi ≤ FSDI }
    requires new { held_of lanes.old ≡ new_lanes (length works.old) (held_of lanes.old).order.turns }
    requires few { length works.old ≤ LANES }
    requires works { All (IsNewWork config.now) works.old }
    ensures ok { OnOk result (Reports P.steps config.now traced fsdi (held_of lanes.old).order.turns
        (record { lanes = held_of lanes.old; works = works.old; probe = P.state probe.old; written = K.written output.old })
        (record { lanes = held_of lanes.new; works = works.new; probe = P.state probe.new; written = K.written output.new })) }
    ensures err { OnErr result (ReportsPart P.steps config.now traced fsdi (held_of lanes.old).order.turns
        (record { lanes = held_of lanes.old; works = works.old; probe = P.state probe.old; written = K.written output.old })
        (K.written output.new)) }
    ensures told { is_some (K.written output.new) ≡ is_some (K.written output.old) }
    ensures cause { HasCause (K.faults output.old) (K.faults output.new) (IsErr result) }
{
    match run_lanes::<K, ByFields, P>(lanes, config, fsdi, traced, works, output, probe) {
        Ok(_) => Ok(()),
        Err(_) => Err(SinkFailed),
    }
}

/// Runs at most `LANES` lanes as a report does, whoever answers their exchanges, and over the fields that stand for theirs. It
/// says whether the run is over: no lane has an exchange left, or else the next exchange had no answer. Before that one all was
/// written, and who answers is in the state in which it failed.
///
/// The lanes are new, and what each has to do are at most `TRANSACTIONS` transactions within this project's limits; the reader's
/// frame size code is at most 8. Nothing here takes memory.
///
/// Errors: the sink has failed; a first part of what such a run writes was written.
pub fn run_lanes<K: Sink, By, A: Answers<By>>(
    lanes: &mut Lanes<Scripts>,
    config: &Config,
    fsdi: u8,
    traced: bool,
    works: &mut [LaneJobs],
    output: &mut K,
    answers: &mut A,
) -> Result<bool, SinkFailed>
    requires code { fsdi ≤ FSDI }
    requires new { held_of lanes.old ≡ new_lanes (length works.old) (held_of lanes.old).order.turns }
    requires few { length works.old ≤ LANES }
    requires works { All (IsNewWork config.now) works.old }
    ensures ok { IfOk result (RunsTo A.steps A.has_failed config.now traced fsdi (held_of lanes.old).order.turns
        (record { lanes = held_of lanes.old; works = all_played A.field_for works.old; probe = A.state answers.old; written = K.written output.old })
        (record { lanes = held_of lanes.new; works = all_played A.field_for works.new; probe = A.state answers.new; written = K.written output.new })) }
    ensures err { OnErr result (RunsPart A.steps A.has_failed config.now traced fsdi (held_of lanes.old).order.turns
        (record { lanes = held_of lanes.old; works = all_played A.field_for works.old; probe = A.state answers.old; written = K.written output.old })
        (K.written output.new)) }
    ensures told { is_some (K.written output.new) ≡ is_some (K.written output.old) }
    ensures cause { HasCause (K.faults output.old) (K.faults output.new) (IsErr result) }
{
    let mut events = EventList::new();
    match open_lanes::<K, By, A>(lanes, config, fsdi, works, output, &mut events) {
        Ok(()) => make_turns::<K, By, A>(
            lanes,
            config,
            fsdi,
            traced,
            works,
            output,
            answers,
            &mut events,
        ),
        Err(_) => Err(SinkFailed),
    }
}

// Opens all lanes in rising order.
fn open_lanes<K: Sink, By, A: Answers<By>>(
    lanes: &mut Lanes<Scripts>,
    config: &Config,
    fsdi: u8,
    works: &mut [LaneJobs],
    output: &mut K,
    events: &mut EventList,
) -> Result<(), SinkFailed>
    requires code { fsdi ≤ FSDI }
    requires new { held_of lanes.old ≡ new_lanes (length works.old) (held_of lanes.old).order.turns }
    requires few { length works.old ≤ LANES }
    requires works { All (IsNewWork config.now) works.old }
    ensures ok { OnOk result (LanesOpened A.plays config.now fsdi (held_of lanes.old).order.turns
        (record { lanes = held_of lanes.old; works = all_played A.field_for works.old; probe = tt {0}; written = K.written output.old })
        (record { lanes = held_of lanes.new; works = all_played A.field_for works.new; probe = tt {0}; written = K.written output.new })) }
    ensures fits { OnOk result (Fits (held_of lanes.new) (all_played A.field_for works.new)) }
    ensures count { length works.new ≡ length works.old }
    ensures err { OnErr result (AppendsPrefix (K.written output.old) (K.written output.new) (opening_text fsdi 1 (all_jobs config.now (all_played A.field_for works.old)))) }
    ensures told { is_some (K.written output.new) ≡ is_some (K.written output.old) }
    ensures cause { HasCause (K.faults output.old) (K.faults output.new) (IsErr result) }
{
    let mut lane = 1u8;
    for work in works.iter_mut() {
        match begin_next::<K, By, A>(lane, lanes, config, fsdi, work, output, events) {
            Ok(()) => {}
            Err(_) => return Err(SinkFailed),
        }
        lane += 1;
    }
    Ok(())
}

// Makes the turns until no lane has an exchange left, or the next one has no answer. It says whether all were made.
fn make_turns<K: Sink, By, A: Answers<By>>(
    lanes: &mut Lanes<Scripts>,
    config: &Config,
    fsdi: u8,
    traced: bool,
    works: &mut [LaneJobs],
    output: &mut K,
    answers: &mut A,
    events: &mut EventList,
) -> Result<bool, SinkFailed>
    requires code { fsdi ≤ FSDI }
    requires fits { Fits (held_of lanes.old) (all_played A.field_for works.old) }
    ensures ok { IfOk result (TurnsMade A.steps A.has_failed A.plays config.now traced fsdi
        (record { lanes = held_of lanes.old; works = all_played A.field_for works.old; probe = A.state answers.old; written = K.written output.old })
        (record { lanes = held_of lanes.new; works = all_played A.field_for works.new; probe = A.state answers.new; written = K.written output.new })) }
    ensures err { OnErr result (TurnsCut A.steps A.has_failed A.plays config.now traced fsdi
        (record { lanes = held_of lanes.old; works = all_played A.field_for works.old; probe = A.state answers.old; written = K.written output.old })
        (K.written output.new)) }
    ensures told { is_some (K.written output.new) ≡ is_some (K.written output.old) }
    ensures cause { HasCause (K.faults output.old) (K.faults output.new) (IsErr result) }
{
    for _made in 0..MOST_EXCHANGES {
        let Some(lane) = lanes.next() else {
            return Ok(true);
        };
        match take_turn::<K, By, A>(
            lane, lanes, config, fsdi, traced, works, output, answers, events,
        ) {
            Ok(true) => {}
            Ok(false) => return Ok(false),
            Err(_) => return Err(SinkFailed),
        }
    }
    Ok(true)
}
