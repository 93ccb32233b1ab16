//! A kernel, from its activation to what follows its outcome.
ghost use Rattle.std.specs.Prelude.{◌≡◌, ℕ, ◌+◌, ◌≤◌, List, ◌++◌, true, false, length};
ghost use Rattle.arrayvec.specs.ArrayVec.{array_vec_len};
ghost use Rattle.ep_rules.specs.EntryPoint.Event.{Event as EventData};
ghost use Rattle.ep_rules.specs.EntryPoint.Talk.{Talk, Result};
ghost use Rattle.ep_rules.specs.EntryPoint.KernelCounts.{RestartsFall};
ghost use Rattle.kernel_port.specs.Kernels.{move_of, is_send};
ghost use Rattle.kernel_port.specs.Outcome.{verdict_of};
ghost use Rattle.session_phases.specs.Plain.{wish_of};
ghost use Rattle.session_phases.specs.Told.{told_by};
ghost use Rattle.session_phases.specs.Wishes.{Within, Decides, Moves, Activates, Hears, Wished, CommandsLeft, RestartsAt, RestartsLeft, selects_left, serves_wish};

use crate::events::{note, note_outcome};
use crate::selecting::select_left;
use crate::steps::{Purpose, Selection, Wish};
use kernel_port::{Event, EventList, KernelStep, Kernels, Outcome, OutcomeKind};
use pre_processing::Prepared;
use tlv_arena::Arena;

/// What follows an outcome: the candidates that are left, a new Start B, or the end.
fn decide<K: Kernels>(
    outcome: Outcome,
    selection: &mut Selection,
    prepared: &Prepared,
    arena: &Arena,
    kernels: &K,
    events: &mut EventList,
) -> Wish
    requires { array_vec_len events.old + 4 ≤ 24 }
    ensures wishes { (talk : Talk) (results : List Result) (before : List EventData)
        → Within K.steps prepared.now.list arena.now.objects selection.old.rest (λ n. RestartsFall outcome.kind n (K.steps.restarts (K.state kernels.now))) (Decides K.steps prepared.now.list (K.state kernels.now) (verdict_of outcome)) talk results (before ++ told_by events.old.items)
        → Wished K.steps prepared.now.list (K.state kernels.now) arena.now.objects talk results (before ++ told_by events.new.items) (wish_of result selection.new) }
    ensures serves { serves_wish (K.is_open kernels.now) (K.is_fresh kernels.now) (wish_of result selection.new) ≡ true }
    ensures falls { selects_left (wish_of result selection.new) ≤ length selection.old.rest }
    ensures restarts { (n : ℕ) → RestartsFall outcome.kind n (K.steps.restarts (K.state kernels.now)) → RestartsAt (wish_of result selection.new) n (K.steps.restarts (K.state kernels.now)) }
    ensures count { array_vec_len events.new ≤ array_vec_len events.old + 4 }
{
    note_outcome(events, outcome);
    match outcome.kind {
        OutcomeKind::SelectNext => select_left(selection, prepared, arena, kernels, events),
        OutcomeKind::TryAgain => Wish::Close { again: true },
        OutcomeKind::Approved => Wish::Close { again: false },
        OutcomeKind::Declined => Wish::Close { again: false },
        OutcomeKind::OnlineRequest => Wish::Close { again: false },
        OutcomeKind::TryAnother => Wish::Close { again: false },
        OutcomeKind::EndApplication => Wish::Close { again: false },
    }
}

/// What follows a kernel's step: its command, or what follows its outcome.
fn go_on<K: Kernels>(
    step: KernelStep,
    selection: &mut Selection,
    prepared: &Prepared,
    arena: &Arena,
    kernels: &K,
    events: &mut EventList,
) -> Wish
    requires room { array_vec_len events.old + 4 ≤ 24 }
    requires opened { K.is_open kernels.now ≡ is_send step }
    requires begun { K.is_fresh kernels.now ≡ false }
    ensures wishes { (talk : Talk) (results : List Result) (before : List EventData)
        → Within K.steps prepared.now.list arena.now.objects selection.old.rest (λ n. RestartsLeft (move_of step) n (K.steps.restarts (K.state kernels.now))) (Moves K.steps prepared.now.list (K.state kernels.now) (move_of step)) talk results (before ++ told_by events.old.items)
        → Wished K.steps prepared.now.list (K.state kernels.now) arena.now.objects talk results (before ++ told_by events.new.items) (wish_of result selection.new) }
    ensures serves { serves_wish (K.is_open kernels.now) (K.is_fresh kernels.now) (wish_of result selection.new) ≡ true }
    ensures falls { (n : ℕ) → CommandsLeft (move_of step) n (K.steps.commands (K.state kernels.now))
        → K.steps.commands (K.state kernels.now) + selects_left (wish_of result selection.new) ≤ n + length selection.old.rest }
    ensures restarts { (n : ℕ) → RestartsLeft (move_of step) n (K.steps.restarts (K.state kernels.now)) → RestartsAt (wish_of result selection.new) n (K.steps.restarts (K.state kernels.now)) }
    ensures count { array_vec_len events.new ≤ array_vec_len events.old + 4 }
{
    match step {
        KernelStep::Send(command) => {
            selection.command = command;
            Wish::Command(Purpose::Kernel)
        }
        KernelStep::Done(outcome) => decide(outcome, selection, prepared, arena, kernels, events),
    }
}

/// A kernel is activated, and makes its first step.
pub(crate) fn activate<K: Kernels>(
    selection: &mut Selection,
    prepared: &Prepared,
    arena: &Arena,
    kernels: &mut K,
    events: &mut EventList,
) -> Wish
    requires { array_vec_len events.old + 5 ≤ 24 }
    ensures wishes { (talk : Talk) (results : List Result) (before : List EventData)
        → Within K.steps prepared.now.list arena.now.objects selection.old.rest (λ n. K.steps.restarts (K.state kernels.old) ≤ n) (Activates K.steps prepared.now.list (K.state kernels.old) selection.old.given) talk results (before ++ told_by events.old.items)
        → Wished K.steps prepared.now.list (K.state kernels.new) arena.now.objects talk results (before ++ told_by events.new.items) (wish_of result selection.new) }
    ensures serves { serves_wish (K.is_open kernels.new) (K.is_fresh kernels.new) (wish_of result selection.new) ≡ true }
    ensures falls { K.steps.commands (K.state kernels.new) + selects_left (wish_of result selection.new) ≤ K.steps.commands (K.state kernels.old) + length selection.old.rest }
    ensures restarts { RestartsAt (wish_of result selection.new) (K.steps.restarts (K.state kernels.old)) (K.steps.restarts (K.state kernels.new)) }
    ensures count { array_vec_len events.new ≤ array_vec_len events.old + 5 }
{
    kernels.begin(&selection.given);
    note(events, Event::Activate(selection.given.copy()));
    let step = kernels.step(None);
    go_on(step, selection, prepared, arena, kernels, events)
}

/// After the answer to an open kernel's command: the kernel makes its next step.
pub(crate) fn after_command<K: Kernels>(
    selection: &mut Selection,
    prepared: &Prepared,
    arena: &Arena,
    kernels: &mut K,
    events: &mut EventList,
) -> Wish
    requires room { array_vec_len events.old + 4 ≤ 24 }
    requires opened { K.is_open kernels.old ≡ true }
    requires begun { K.is_fresh kernels.old ≡ false }
    ensures wishes { (talk : Talk) (results : List Result) (before : List EventData)
        → Within K.steps prepared.now.list arena.now.objects selection.old.rest (λ n. K.steps.restarts (K.state kernels.old) ≤ n) (Hears K.steps prepared.now.list (K.state kernels.old) selection.old.response) talk results (before ++ told_by events.old.items)
        → Wished K.steps prepared.now.list (K.state kernels.new) arena.now.objects talk results (before ++ told_by events.new.items) (wish_of result selection.new) }
    ensures serves { serves_wish (K.is_open kernels.new) (K.is_fresh kernels.new) (wish_of result selection.new) ≡ true }
    ensures falls { K.steps.commands (K.state kernels.new) + selects_left (wish_of result selection.new) ≤ K.steps.commands (K.state kernels.old) + length selection.old.rest }
    ensures restarts { RestartsAt (wish_of result selection.new) (K.steps.restarts (K.state kernels.old)) (K.steps.restarts (K.state kernels.new)) }
    ensures count { array_vec_len events.new ≤ array_vec_len events.old + 4 }
{
    let step = kernels.step(Some(&selection.response));
    go_on(step, selection, prepared, arena, kernels, events)
}
