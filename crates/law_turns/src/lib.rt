//! Laws of a run of several lanes, exchange by exchange, each the contract of a function that does nothing.
//!
//! The order of the exchanges, what each lane writes with each of its own, and the run are defined in `ep_claim`, with what the laws state.
#![tactic(auto)]

ghost use Rattle.ep_rules.specs.EntryPoint.Kernel.{KernelSteps};
ghost use Rattle.ep_claim.specs.Lanes.Apart.{LanesApart, OthersStay};
ghost use Rattle.ep_claim.specs.Promise.Counts.{AreUnderWay, BoundedCount};
ghost use Rattle.ep_claim.specs.Lanes.Counting.{EveryExchangeCounts, TransactionsAreBounded};
ghost use Rattle.ep_claim.specs.Lanes.Ending.{OneEnd, RunsEnd, RunsEndWithin};
ghost use Rattle.law_turns.specs.Growing.{RunsEndInMost, RunsStay, TextsGrow};
ghost use Rattle.ep_claim.specs.Promise.Transaction.{TransactionsKeep};
ghost use Rattle.ep_claim.specs.Promise.Lane.{OneText, ToldKeep};
ghost use Rattle.ep_claim.specs.Promise.Logs.{LogsFit};
ghost use Rattle.ep_claim.specs.Lanes.Pieces.{PiecesAreText};
ghost use Rattle.ep_claim.specs.Lanes.Telling.{KeepsInRun, RunsTell, TellsReport};
ghost use Rattle.ep_claim.specs.Promise.Thirds.{FailsExactlyAtThird};
ghost use Rattle.ep_claim.specs.Lanes.Turning.{TurnsAreLive};
ghost use Rattle.ep_claim.specs.Lanes.WholeRun.{ProbeSteps};

/// A turn is that of a lane that has an exchange left, one of those that are numbered from 1 on; and it is no one's only
/// where none of these lanes has one left.
///
/// The turn list names these lanes alone.
pub fn turns_are_live()
    ensures { TurnsAreLive }
{}

/// The pieces of a run, each with the lane that wrote it, are its text in the order in which they were written, whatever
/// the probe makes of the hearings. P has the states of the probe.
pub fn pieces_are_text<P>()
    ensures { (probe : ProbeSteps P) → PiecesAreText probe }
{}

/// With the probe that gives on what it gets, and whatever the order of the exchanges, each lane of a run is after some
/// count of exchanges of one of its transactions, as this one is alone over its own field; those before it are over; and
/// its pieces tell those, and of this one what it told so far. A lane without an exchange left told all its transactions.
pub fn keeps_in_run()
    ensures { KeepsInRun }
{}

/// Once no lane has an exchange left, the pieces of each lane tell all of its transactions, each of them over.
pub fn runs_tell()
    ensures { RunsTell }
{}

/// A transaction over a new field of a document's cards that is over has the promise, whatever becomes of its frames, with
/// the least count of exchanges after which it is over. Where no link fails, its events and its log are those of the
/// perfect run for the ends of its rounds; where one fails, they are a first part of it, and the command without a response
/// was executed at most once. Where every frame passes no link fails.
///
/// Its log carries the transaction, and it closes the presentation of a found card alone.
pub fn transactions_keep()
    ensures { TransactionsKeep }
{}

/// A link fails exactly with the third bad exchange of an open command since the reader's last toggle, or since the link was
/// opened, in every transaction over every field.
pub fn fails_exactly_at_third()
    ensures { (fsdi : _) (j : _) → FailsExactlyAtThird fsdi j }
{}

/// What tells a lane's transactions, each of them over, has the promise: each transaction has its own, as
/// `transactions_keep` says; the text is their lines; without the trace lines these are the report of their events and
/// logs; and where every frame passes, that of the perfect runs.
///
/// Each is over a new field of a document's cards, which its log carries, and closes the presentation of a found card alone.
pub fn told_keep()
    ensures { ToldKeep }
{}

/// The log of a transaction that keeps to the perfect run has at most as many records as it sends commands at most, and a
/// record is free, after every count of exchanges, where its room is larger than that.
pub fn logs_fit()
    ensures { LogsFit }
{}

/// The promise of a lane fixes its text: nothing else meets it.
pub fn one_text()
    ensures { OneText }
{}

/// Where no trace is wanted, the text that tells a lane's transactions is the report of their events and their logs.
pub fn tells_report()
    ensures { TellsReport }
{}

/// Whatever is heard, a transaction is over after the exchanges of its bounds: `COMMAND_EXCHANGES` for each command, and
/// `START_EXCHANGES` for each Start B, the closing of its presentation among them.
///
/// It sends commands alone, to a card that was found and not closed, and polls `ROUNDS` rounds at most in each Start B.
pub fn every_exchange_counts()
    ensures { EveryExchangeCounts }
{}

/// Whatever is heard, and after however many exchanges, a transaction's next one is within its bounds: with it a poll round
/// has at most `ROUND_EXCHANGES` exchanges, a Start B `ROUNDS` rounds, and the transaction its Start Bs; a link has at most
/// `BETWEEN_TOGGLES` since the reader's last toggle, or since it was opened, a command one toggle more than `TOGGLES`, and the
/// transaction its commands. All its exchanges are at most those of `every_exchange_counts`.
///
/// It sends commands alone, to a card that was found and not closed, and polls `ROUNDS` rounds at most in each Start B.
pub fn next_exchange_fits()
    ensures { BoundedCount }
{}

/// Each lane of a run that has an exchange left is in one of its transactions, where the exchanges that it made of it lead,
/// by what was heard in each; whatever the order of the exchanges and whatever the probe makes of the hearings. P has the
/// states of the probe.
pub fn lanes_are_under_way<P>()
    ensures { (probe : ProbeSteps P) → AreUnderWay probe }
{}

/// The transaction of Entry Point, with kernels whose counts fall and which send commands alone, is bounded so. S has the
/// states of the kernels.
pub fn transactions_are_bounded<S>()
    ensures { (k : KernelSteps S) → TransactionsAreBounded k }
{}

/// A run of several lanes comes to its end, whatever the order of the exchanges and whatever the probe makes of the
/// hearings: after the exchanges of all its transactions together at most. Once it is over it stays so, and it is the same
/// at every count of exchanges at which it is over. P has the states of the probe.
///
/// Each transaction is over after its count of exchanges, whatever is heard, as `every_exchange_counts` says of bounded ones.
pub fn runs_end<P>()
    ensures within { (probe : ProbeSteps P) → RunsEndWithin probe }
    ensures comes { (probe : ProbeSteps P) → RunsEnd probe }
    ensures once { (probe : ProbeSteps P) → OneEnd probe }
{}

/// Once a run is over it stays as it is at every larger count of exchanges, and the run of at most `LANES` lanes of at most
/// `TRANSACTIONS` transactions is over after `most_exchanges`, whatever the probe makes of the hearings. P has the states of
/// the probe.
///
/// Each transaction has at most `TYPE_COMBINATIONS` Combinations, and its kernels follow at most `SCRIPTS` scripts of at most
/// `STEPS` steps each taken together, which send commands alone.
pub fn runs_end_in_most<P>()
    ensures stay { (probe : ProbeSteps P) → RunsStay probe }
    ensures most { (probe : ProbeSteps P) → RunsEndInMost probe }
{}

/// What a run wrote is the beginning of what it has written after more exchanges, whatever the probe makes of the hearings.
/// P has the states of the probe.
pub fn texts_grow<P>()
    ensures { (probe : ProbeSteps P) → TextsGrow probe }
{}

/// With the probe that gives on what it gets, and for every turn list, the pieces of a lane are, one after another, the
/// text of a run that has this lane alone under its own number and no turn list; and where the run of all lanes is over,
/// that run is over too.
pub fn lanes_apart()
    ensures { LanesApart }
{}

/// A turn is of one lane, whatever the probe makes of its hearing: all other lanes, with their transactions and their
/// fields, stay as they were. P has the states of the probe.
pub fn others_stay<P>()
    ensures { (probe : ProbeSteps P) → OthersStay probe }
{}
