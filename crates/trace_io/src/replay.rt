//! A trace as a medium.
ghost use Rattle.std.specs.Prelude.{◌≡◌, ◌↔◌, ◌⊎◌, ◌<◌, length, map, option_map, IfSome, IsSome, is_ok, IsErr, Some, None};
ghost use Rattle.ep_base.specs.Streams.Causes.{HasCause, Rose};
ghost use Rattle.ep_claim.specs.Lanes.ReplayRun.{at_lane, begun_replay, failing, finishes, next_line, next_place, replays};
ghost use Rattle.rf_frame.specs.Meaning.{maybe_heard};
ghost use Rattle.trace_io.specs.Meaning.{traced_of};
ghost use Rattle.trace_io.specs.Replays.{replaying_of};

use crate::line::{Shown, TraceLine, same_shown};
use crate::mismatch::Mismatch;
use ep_base::{FrameBuf, Wave};
use rf_frame::{Heard, Medium, RfFailed, copy_frame};

/// The whole trace of an earlier run. As a medium it compares each exchange with the next line, and answers with what
/// was heard then. It fails at the first exchange that differs, and from then on.
#[derive(Drop)]
pub struct Replay {
    lines: Vec<TraceLine>,
    // How many lines were taken.
    taken: usize,
    lane: u8,
    failure: Option<Mismatch>,
    faults: u64,
}

impl Replay {
    /// A trace of which no line was taken. Lane 1 sends until another one is named.
    pub fn of(lines: Vec<TraceLine>) -> Replay
        ensures state { replaying_of result ≡ begun_replay (map traced_of lines.items) }
    {
        Replay {
            lines,
            taken: 0,
            lane: 1,
            failure: None,
            faults: 0,
        }
    }

    /// This lane sends from now on.
    pub fn at(&mut self, lane: u8)
        ensures state { replaying_of self.new ≡ at_lane lane (replaying_of self.old) }
        ensures faults { self.new.faults ≡ self.old.faults }
    {
        self.lane = lane;
    }

    /// The run is over.
    ///
    /// Errors: `RfFailed` where a call failed before, or lines are left.
    pub fn finish(&mut self) -> Result<(), RfFailed>
        ensures step { finishes (replaying_of self.old) ≡ (is_ok result, replaying_of self.new) }
        ensures fails { IsErr result ↔ (IsSome (replaying_of self.old).failure ⊎ IsSome (next_line (replaying_of self.old))) }
        ensures cause { HasCause self.old.faults self.new.faults (IsErr result) }
    {
        if self.failure.is_some() {
            return Err(self.refuse());
        }
        match self.next_sent() {
            None => Ok(()),
            Some(wanted) => Err(self.fail(Some(wanted), None)),
        }
    }

    /// Where the run and the trace differ first. `None` where no call failed.
    pub fn mismatch(&self) -> Option<&Mismatch>
        ensures first { option_map (λ m. m.now) result ≡ (replaying_of self.now).failure }
    {
        self.failure.as_ref()
    }

    // Compares what is sent with the next line.
    fn compare(&mut self, got: Shown) -> Result<Heard, RfFailed>
        ensures step { replays got (replaying_of self.old) ≡ (maybe_heard result, replaying_of self.new) }
        ensures cause { HasCause self.old.faults self.new.faults (IsErr result) }
    {
        if self.failure.is_some() {
            return Err(self.refuse());
        }
        match self.next_line() {
            None => Err(self.fail(None, Some(got))),
            Some(line) => {
                if same_shown(&line.sent, &got) {
                    let heard = line.heard.copy();
                    self.taken += 1;
                    return Ok(heard);
                }
                let wanted = line.sent.copy();
                Err(self.fail(Some(wanted), Some(got)))
            }
        }
    }

    // The line that comes next.
    fn next_line(&self) -> Option<&TraceLine>
        ensures line { option_map (λ l. traced_of l.now) result ≡ next_line (replaying_of self.now) }
        ensures within { IsSome result → self.now.taken < length self.now.lines.items }
    {
        self.lines.get(self.taken)
    }

    // What the next line says was sent.
    fn next_sent(&self) -> Option<Shown>
        ensures sent { result ≡ option_map (λ l. l.sent) (next_line (replaying_of self.now)) }
    {
        self.next_line().map(|line| line.sent.copy())
    }

    // The place of the next line, counted from 1.
    fn place(&self) -> u32
        ensures place { result ≡ next_place (replaying_of self.now) }
    {
        let taken = self.taken;
        u32::try_from(taken).unwrap_or(u32::MAX).saturating_add(1)
    }

    // The run and the trace differ here.
    fn fail(&mut self, wanted: Option<Shown>, got: Option<Shown>) -> RfFailed
        ensures state { replaying_of self.new ≡ failing wanted got (replaying_of self.old) }
        ensures rose { HasCause self.old.faults self.new.faults (Unit {0}) }
    {
        let place = self.place();
        self.failure = Some(Mismatch { place, wanted, got });
        self.refuse()
    }

    // A call fails.
    fn refuse(&mut self) -> RfFailed
        ensures state { replaying_of self.new ≡ replaying_of self.old }
        ensures rose { HasCause self.old.faults self.new.faults (Unit {0}) }
    {
        self.faults = self.faults.saturating_add(1);
        RfFailed
    }
}

impl Medium for Replay {
    ghost use Rattle.ep_base.specs.Air.Medium.{told};
    ghost use Rattle.ep_claim.specs.Lanes.ReplayRun.{Replaying, replay};
    ghost use Rattle.trace_io.specs.Replays.{replaying_of};

    ghost State = { Replaying };

    ghost state = { replaying_of };

    ghost steps = { told replay };

    ghost faults = { λ r. r.faults };

    /// Does nothing.
    fn reset(&mut self) -> Result<(), RfFailed> {
        Ok(())
    }

    /// Compares what is sent with the next line. Where lane, wave, frame and waiting number are the same, what is heard
    /// is what the line says.
    ///
    /// Errors: `RfFailed` where they aren't, or no line is left, or a call failed before.
    fn send(&mut self, wave: Wave, frame: &FrameBuf, wait: u32) -> Result<Heard, RfFailed> {
        self.compare(Shown {
            lane: self.lane,
            wave,
            frame: copy_frame(frame),
            wait,
        })
    }
}
