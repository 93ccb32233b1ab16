//! Laws about trace lines and replays, over plain data: each function's contract is a law, and its body is empty.
ghost use Rattle.ep_claim.specs.Lanes.ReplayRun.{FailsForGood, FailureIsHeld};
ghost use Rattle.ep_claim.specs.Text.TraceForm.{OneReading, WrittenIsRead};

/// A text is read as an exchange exactly where it spells this exchange in the form of a trace line.
pub fn one_reading()
    ensures { OneReading }
{}

/// What was written of an exchange that a line can hold, without its newline, is read as this exchange.
pub fn written_is_read()
    ensures { WrittenIsRead }
{}

/// After a failure each call of a replay fails, and the first failure is kept.
pub fn fails_for_good()
    ensures { FailsForGood }
{}

/// A replay holds a failure exactly from its first call on that fails.
pub fn failure_is_held()
    ensures { FailureIsHeld }
{}
