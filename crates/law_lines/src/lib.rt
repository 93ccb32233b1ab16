//! Laws of the trace lines of a run, each the contract of a function that does nothing.
//!
//! What a trace line can hold is defined in `ep_claim`; `specs/` states the laws.
#![tactic(auto)]

ghost use Rattle.law_lines.specs.RunLines.{RunsAreHeld, RunsAreRead};

/// Every exchange of a run can be held by a trace line: its lane and its waiting number are within their bounds, what was sent
/// and what was heard are frames of bytes, and an answer comes in the answer's wave.
///
/// The transactions may begin, and their cards, commands and responses are made of bytes.
pub fn runs_are_held()
    ensures { RunsAreHeld }
{}

/// The line of every exchange of such a run, as it is written, is read as the exchange.
pub fn runs_are_read()
    ensures { RunsAreRead }
{}
