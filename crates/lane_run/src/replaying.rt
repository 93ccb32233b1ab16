//! The replay of all lanes.
ghost use Rattle.std.specs.Prelude.{◌≡◌, ◌≤◌, All, length, IfErr, OnOk, IsErrAnd, None, is_some};
ghost use Rattle.ep_base.specs.Streams.Causes.{HasCause};
ghost use Rattle.ep_base.specs.declared.limits.TheConstants.{FSDI, LANES};
ghost use Rattle.ep_claim.specs.Lanes.ReplayRun.{begun_replay};
ghost use Rattle.ep_lanes.specs.Lanes.{new_lanes};
ghost use Rattle.trace_io.specs.Replays.{replaying_of};
ghost use Rattle.ep_lanes.specs.Scripted.{held_of};
ghost use Rattle.lane_run.specs.Ended.{Ended, IsSinkFault};
ghost use Rattle.lane_run.specs.Replayed.{Replayed};
ghost use Rattle.lane_run.specs.Reports.{IsNewWork};

use crate::ending::{ReplayEnd, copy_mismatch};
use crate::jobs::LaneJobs;
use crate::run::run_lanes;
use crate::tracing::ByTrace;
use acquirer_config::Config;
use ep_base::Sink;
use ep_lanes::Lanes;
use scenario::Scripts;
use trace_io::Replay;

/// Runs at most `LANES` lanes against the trace of an earlier run in place of cards: first the lanes are opened in rising order,
/// and then each turn compares what one lane asks with the next trace line. The lane hears what the line says, and its
/// events are written, without log lines and trace lines. The replay is matched where each exchange has its line and each
/// line its exchange.
///
/// The lanes are new, what each has to do are at most `TRANSACTIONS` transactions within this project's limits, and no line was
/// taken; the reader's frame size code is at most 8. The fields of the lanes' transactions aren't used. Nothing here takes memory.
///
/// Errors: the first mismatch, and all that comes before it was written; or the sink has failed, and a first part of the
/// lines was written.
pub fn replay_lanes<K: Sink>(
    lanes: &mut Lanes<Scripts>,
    config: &Config,
    fsdi: u8,
    works: &mut [LaneJobs],
    replay: &mut Replay,
    output: &mut K,
) -> Result<(), ReplayEnd>
    requires code { fsdi ≤ FSDI }
    requires new { held_of lanes.old ≡ new_lanes (length works.old) (held_of lanes.old).order.turns }
    requires few { length works.old ≤ LANES }
    requires works { All (IsNewWork config.now) works.old }
    requires begun { replaying_of replay.old ≡ begun_replay (replaying_of replay.old).lines }
    ensures ok { OnOk result (Replayed config.now fsdi (held_of lanes.old).order.turns
        (record { lanes = held_of lanes.old; works = works.old; trace = replaying_of replay.old; written = K.written output.old })
        (K.written output.new) None) }
    ensures err { IfErr result (Ended config.now fsdi (held_of lanes.old).order.turns
        (record { lanes = held_of lanes.old; works = works.old; trace = replaying_of replay.old; written = K.written output.old })
        (K.written output.new)) }
    ensures told { is_some (K.written output.new) ≡ is_some (K.written output.old) }
    ensures cause { HasCause (K.faults output.old) (K.faults output.new) (IsErrAnd result IsSinkFault) }
{
    match run_lanes::<K, ByTrace, Replay>(lanes, config, fsdi, false, works, output, replay) {
        Ok(_) => {}
        Err(_) => return Err(ReplayEnd::SinkFailed),
    }
    match replay.finish() {
        Ok(()) => Ok(()),
        Err(_) => {
            let Some(mismatch) = replay.mismatch() else {
                unreachable!()
            };
            Err(ReplayEnd::Mismatch(copy_mismatch(mismatch)))
        }
    }
}
