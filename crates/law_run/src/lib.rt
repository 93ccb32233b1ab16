//! Laws about how the talk of a transaction runs over a transport and before a taker of events, over plain data alone.
//!
//! Each law is the contract of a function with an empty body; its lemma, in `proofs/`, is what other crates cite.
#![tactic(auto)]

ghost use Rattle.std.specs.Prelude.{ℕ, ◌+◌, ◌*◌, ◌≤◌, List, length, All};
ghost use Rattle.ep_rules.specs.EntryPoint.Candidates.{candidates};
ghost use Rattle.ep_base.specs.Objects.Directory.{Entry};
ghost use Rattle.ep_base.specs.declared.limits.TheConstants.{NAMED};
ghost use Rattle.ep_rules.specs.EntryPoint.Transaction.{transaction};
ghost use Rattle.ep_rules.specs.EntryPoint.Kernel.{KernelSteps, scripted};
ghost use Rattle.ep_rules.specs.EntryPoint.KernelCounts.{FallingCounts};
ghost use Rattle.ep_rules.specs.EntryPoint.PreProcessing.{PreparedOne};
ghost use Rattle.ep_base.specs.Poll.Transport.{TransportSteps};
ghost use Rattle.ep_rules.specs.EntryPoint.EventSteps.{EventSteps};
ghost use Rattle.ep_rules.specs.EntryPoint.Bounds.{AtMost, AtMostStarts, FewApdus, log_bound};
ghost use Rattle.law_run.specs.CandidateFacts.{IsCandidate};
ghost use Rattle.law_run.specs.Heard.{Hearing};
ghost use Rattle.law_run.specs.Legality.{Legal, ScriptedLegal};
ghost use Rattle.law_run.specs.OverPerfect.{OverPerfect, TransactionOverPerfect};
ghost use Rattle.law_run.specs.ScriptCounts.{ScriptsBound};
ghost use Rattle.law_run.specs.StartB.{OneStart};

/// A transport, by the answers that it may give in each state.
pub trait Channel {
    /// Its states.
    ghost State: { Type 0 };

    /// Its answers.
    ghost steps: { TransportSteps State };
}

/// A taker of events, by what it is after each.
pub trait Taker {
    /// Its states.
    ghost State: { Type 0 };

    /// What an event that is taken, or cut, makes of it.
    ghost steps: { EventSteps State };
}

/// What became of a run, by its end.
///
/// A run that ended took all events of its talk for the results that the transport gave, the end of a failed link
/// with them, and what it ended with is the last of them. Where a device failed, it took all events for the results
/// that came before. Where the taker of events failed, it took a first part of them, and the next one was cut.
pub fn heard_by_end<C: Channel, K: Taker>()
    ensures { Hearing C.steps K.steps }
{}

/// A Start B runs as its presentation goes on: the message where some round collided, and then the card's talk or
/// the end without a card.
pub fn start_b_runs<C: Channel, K: Taker>()
    ensures { OneStart C.steps K.steps }
{}

/// A run over the perfect channel with one card takes the events of the perfect run and executes its commands, and
/// no device and no link fails; where the taker of events fails, it took a first part of these events. The talk has
/// to send its commands to a card that was found, and the log needs room for all of them.
pub fn over_the_perfect_channel<K: Taker>()
    ensures { OverPerfect K.steps }
{}

/// The same of a transaction of Entry Point, whose log has room for its bound. S has the states of the kernels.
pub fn transaction_over_the_perfect_channel<S, K: Taker>()
    ensures { (k : KernelSteps S) → TransactionOverPerfect k K.steps }
{}

/// A transaction has at most one Start B more than restarts, and executes at most so many commands as its bound says,
/// whatever rounds end with and whatever responses come.
pub fn few_commands<S>()
    ensures commands { (k : KernelSteps S) → FallingCounts k → (txn_type : ℕ) → (amount : ℕ) → (ones : List PreparedOne) → (s : S) →
        AtMost (log_bound (k.restarts s) (length ones) (k.commands s)) (transaction k txn_type amount ones s) }
    ensures starts { (k : KernelSteps S) → (txn_type : ℕ) → (amount : ℕ) → (ones : List PreparedOne) → (s : S) →
        AtMostStarts (1 + k.restarts s) (transaction k txn_type amount ones s) }
{}

/// Where a talk has at most n commands, those that were answered and the one that is wished are at most n.
pub fn few_apdus()
    ensures { FewApdus }
{}

/// A directory has at most 28 candidates for each Combination, each with a name of 5 to 16 bytes and a Combination that
/// is allowed.
pub fn few_candidates()
    ensures few { (ones : List PreparedOne) → (entries : List Entry) → length (candidates ones entries) ≤ NAMED * length ones }
    ensures each { (ones : List PreparedOne) → (entries : List Entry) → All (IsCandidate ones) (candidates ones entries) }
{}

/// The counts of kernels that follow scripts fall, and their bound counts scripts, Combinations and steps.
pub fn scripts_fall()
    ensures fall { FallingCounts scripted }
    ensures bound { ScriptsBound }
{}

/// A transaction sends commands alone, and these to a card that was found and not closed, where its kernels send
/// commands alone.
pub fn sends_commands<S>()
    ensures { (k : KernelSteps S) → Legal k }
{}

/// So does one whose kernels follow scripts, where all their steps are commands.
pub fn scripts_send_commands()
    ensures { ScriptedLegal }
{}
