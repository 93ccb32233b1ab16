//! Laws of what a checker of traces says of a run's own trace, each the contract of a function that does nothing.
//!
//! When lines are allowed is defined in `trace_check`, transactions and runs in `ep_claim`; `specs/` states the laws.
#![tactic(auto)]

ghost use Rattle.ep_rules.specs.EntryPoint.Kernel.{KernelSteps};
ghost use Rattle.law_check.specs.Openings.{TransactionClosesOpened};
ghost use Rattle.law_check.specs.Allowing.{RunsAreAllowed, TransactionsAreCut};
ghost use Rattle.law_check.specs.RunLines.{LinesAreWritten};

/// A transaction of Entry Point, with kernels whose counts fall, polls and is over only where no card's presentation is open.
/// S has the states of the kernels.
pub fn transaction_closes_opened<S>()
    ensures { (k : KernelSteps S) → TransactionClosesOpened k }
{}

/// The exchanges of a transaction that is over can be cut into poll rounds and links, whatever becomes of its frames.
///
/// Its field is new and of a document's cards, its log carries it, it closes the presentation of a found card alone, and it
/// polls and is over only where none is open.
pub fn transactions_are_cut()
    ensures { TransactionsAreCut }
{}

/// The trace lines of a run of such transactions are allowed: those of each lane, after however many exchanges, in whatever
/// order of the lanes, and whatever becomes of the frames.
pub fn runs_are_allowed()
    ensures { RunsAreAllowed }
{}

/// The text of a run with a trace has these lines: that of each exchange, before what the exchange writes without a trace.
pub fn lines_are_written()
    ensures { LinesAreWritten }
{}
