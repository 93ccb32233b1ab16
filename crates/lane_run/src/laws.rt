//! Laws of replays of several lanes, each the contract of a function that does nothing.
ghost use Rattle.lane_run.specs.OwnTrace.{OneTrace, OwnTraceMatches, RunsTellTraces, SameTalks};
ghost use Rattle.lane_run.specs.Stopping.{MismatchesDiffer, OneEnd, ReplaysStay, ReplaysStop, TextsGrow};

/// A replay has stopped after one exchange more than its trace has lines.
pub fn replays_stop()
    ensures { ReplaysStop }
{}

/// Once a replay has stopped it stays as it is.
pub fn replays_stay()
    ensures { ReplaysStay }
{}

/// A replay ends in one way: matched, or with one first mismatch, and with one text.
pub fn one_end()
    ensures { OneEnd }
{}

/// The first mismatch of a replay tells two things that differ: what a trace line says was sent, and what was sent, of which
/// one may be missing.
pub fn mismatches_differ()
    ensures { MismatchesDiffer }
{}

/// What a replay wrote is the beginning of what it has written after more exchanges.
pub fn texts_grow()
    ensures { TextsGrow }
{}

/// A run that tells its trace writes the text of the run that doesn't, with trace lines between: the lines of its exchanges, in
/// their order. No probe alters a hearing.
pub fn runs_tell_traces()
    ensures { RunsTellTraces }
{}

/// A run that is over has one trace, whatever count of exchanges it is told at.
pub fn one_trace()
    ensures { OneTrace }
{}

/// The trace of a run that is over is matched by the replay of its lanes, which writes the text of the run without its log
/// lines. No probe alters a hearing of the run, and the order of its exchanges is any.
///
/// What lanes have to do says and asks the same in a report as in a replay.
pub fn own_trace_matches()
    ensures matches { OwnTraceMatches }
    ensures talks { SameTalks }
{}
