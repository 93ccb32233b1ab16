//! The replay of a document's trace.
ghost use Rattle.std.specs.Prelude.{◌≡◌};
ghost use Rattle.std.specs.Io.KnownBytes.{IsAtEnd};
ghost use Rattle.ep_base.specs.Streams.Causes.{HasCause};
ghost use Rattle.ep_base.specs.Streams.Io.{Takes};
ghost use Rattle.ep_program.specs.Headline.{IsReady};
ghost use Rattle.ep_program.specs.Input.{IsTooLong};
ghost use Rattle.ep_program.specs.OwnReplay.{ReplaysOwnTrace, ReplaysRecorded};
ghost use Rattle.ep_program.specs.Replay.{Plays, Replays};

use crate::input::read;
use crate::status::Status;
use doc_table::{DocKind, Path};
use ep_base::{INPUT, NoMemory, Sink, Source};
use ep_lanes::Lanes;
use lane_run::{ReplayEnd, replay_lanes, works_of};
use scenario::Scenario;
use std::alloc::Global;
use trace_io::Replay;

/// Reads a document with a trace, runs its lanes against that trace and writes their events.
pub fn replay_document<S: Source, K: Sink>(alloc: Global, input: &mut S, output: &mut K) -> Status
    ensures replays { Replays (S.left input.old) (K.written output.old) (K.written output.new) result }
    ensures own_trace { ReplaysOwnTrace (S.left input.old) (K.written output.old) (K.written output.new) result }
    ensures recorded { ReplaysRecorded (S.left input.old) (K.written output.old) (K.written output.new) result }
    ensures whole { result ≡ Status.Done → IsAtEnd (S.left input.new) }
    ensures given { Takes INPUT (S.left input.old) (S.left input.new) (IsTooLong result) }
    ensures read_cause { HasCause (S.faults input.old) (S.faults input.new) (result ≡ Status.ReadFault) }
    ensures write_cause { HasCause (K.faults output.old) (K.faults output.new) (result ≡ Status.WriteFault) }
{
    match read(alloc, input) {
        Ok(scenario) => play(alloc, scenario, output),
        Err(status) => status,
    }
}

// Runs the lanes of a document against its trace.
fn play<K: Sink>(alloc: Global, scenario: Scenario, output: &mut K) -> Status
    requires ready { IsReady scenario }
    ensures plays { Plays scenario (K.written output.old) (K.written output.new) result }
    ensures cause { HasCause (K.faults output.old) (K.faults output.new) (result ≡ Status.WriteFault) }
{
    let Scenario {
        config,
        fsdi,
        turns,
        lanes,
        trace,
    } = scenario;
    let Some(lines) = trace else {
        return Status::BadDocument(Path::root().key("trace").fault(DocKind::Missing, 0));
    };
    let count = lanes.len() as u8;
    let mut works = match works_of(alloc, lanes) {
        Ok(works) => works,
        Err(NoMemory) => return Status::NoMemory,
    };
    let mut lanes = match Lanes::open(alloc, count, turns) {
        Ok(lanes) => lanes,
        Err(NoMemory) => return Status::NoMemory,
    };
    let mut trace = Replay::of(lines);
    match replay_lanes(&mut lanes, &config, fsdi, &mut works, &mut trace, output) {
        Ok(()) => Status::Done,
        Err(ReplayEnd::Mismatch(mismatch)) => Status::Mismatch(mismatch),
        Err(ReplayEnd::SinkFailed) => Status::WriteFault,
    }
}
