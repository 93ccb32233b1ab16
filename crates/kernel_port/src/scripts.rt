//! Kernels that follow scripts.
ghost use Rattle.std.specs.Prelude.{◌≡◌, ◌==◌, None, position, drop};
ghost use Rattle.std.specs.Option.{option_copied};
ghost use Rattle.ep_rules.specs.EntryPoint.Kernel.{script_for, without_script, begun, next_step, answered, running_step};
ghost use Rattle.kernel_port.specs.Kernels.{move_of};
ghost use Rattle.kernel_port.specs.Outcome.{verdict_of};

use crate::{Activation, KernelStep, Kernels, Outcome, OutcomeKind};
use apdu::{Command, Response};
use std::marker::Model;

/// A command, the status word that is wanted, and the outcome where another one comes.
#[derive(Drop)]
pub struct Step {
    /// The command.
    pub send: Command,
    /// The status word that is wanted, the first of its two bytes highest.
    pub want: u16,
    /// The outcome where another status word comes.
    pub other: Outcome,
}

impl Model for Step {
    ghost use Rattle.ep_rules.specs.EntryPoint.Kernel.{Step as StepData};
    ghost use Rattle.kernel_port.specs.Outcome.{verdict_of};

    ghost Value = { StepData };

    ghost view = { λ s. record { send = s.send; want = s.want; other = verdict_of s.other } };
}

/// What one activation of a kernel does: steps, and the outcome after the last of them.
#[derive(Drop)]
pub struct Script {
    /// The Kernel ID.
    pub kernel: u32,
    /// The steps in their order.
    pub steps: Vec<Step>,
    /// The outcome where each step had the status word that it wants.
    pub outcome: Outcome,
}

impl Model for Script {
    ghost use Rattle.ep_rules.specs.EntryPoint.Kernel.{Script as ScriptData};
    ghost use Rattle.kernel_port.specs.Outcome.{verdict_of};

    ghost Value = { ScriptData };

    ghost view = { λ s. record { kernel = s.kernel; steps = s.steps.items; verdict = verdict_of s.outcome } };
}

// What is awaited after a step was sent.
#[derive(Drop)]
struct Awaited {
    want: u16,
    other: Outcome,
}

impl Model for Awaited {
    ghost use Rattle.ep_rules.specs.EntryPoint.Kernel.{Awaited as AwaitedData};
    ghost use Rattle.kernel_port.specs.Outcome.{verdict_of};

    ghost Value = { AwaitedData };

    ghost view = { λ a. record { want = a.want; other = verdict_of a.other } };
}

// A script that runs, seen with the steps that weren't sent yet.
#[derive(Drop)]
struct Running {
    awaited: Option<Awaited>,
    steps: Vec<Step>,
    sent: usize,
    outcome: Outcome,
}

impl Model for Running {
    ghost use Rattle.std.specs.Prelude.{drop};
    ghost use Rattle.ep_rules.specs.EntryPoint.Kernel.{Running as RunningData};
    ghost use Rattle.kernel_port.specs.Outcome.{verdict_of};

    ghost Value = { RunningData };

    ghost view = { λ r. record { awaited = r.awaited; steps = drop r.sent r.steps.items; verdict = verdict_of r.outcome } };
}

/// Kernels that follow scripts: the n-th activation of a kernel takes that kernel's n-th script. Beyond its
/// scripts a kernel sends no command, and its outcome is End Application without a message.
#[derive(Drop)]
pub struct Scripts {
    list: Vec<Script>,
    running: Option<Running>,
    active: bool,
    fresh: bool,
}

impl Scripts {
    ghost use Rattle.kernel_port.specs.Scripts.{scripted_of};

    /// Kernels with these scripts, of which none runs yet.
    pub fn of(list: Vec<Script>) -> Scripts
        ensures { scripted_of result ≡ record { scripts = list.items; running = None } }
    {
        Scripts {
            list,
            running: None,
            active: false,
            fresh: false,
        }
    }
}

// The place of the first script of a kernel.
fn place_of(list: &[Script], kernel: u32) -> Option<usize>
    ensures { result ≡ position (λ s. s.kernel == kernel) list.now }
{
    list.iter().position(|script| script.kernel == kernel)
}

// Takes the first script of a kernel.
fn take_script(list: &mut Vec<Script>, kernel: u32) -> Option<Script>
    ensures taken { result ≡ script_for kernel list.old.items }
    ensures left { list.new.items ≡ without_script kernel list.old.items }
{
    let place = place_of(list, kernel)?;
    Some(list.remove(place))
}

// A script whose first step is still to come.
fn run_script(script: Option<Script>) -> Option<Running>
    ensures { result ≡ begun script }
{
    match script {
        None => None,
        Some(script) => {
            let Script { steps, outcome, .. } = script;
            Some(Running {
                awaited: None,
                steps,
                sent: 0,
                outcome,
            })
        }
    }
}

// The step after those that were sent, or the outcome.
fn go_on(steps: Vec<Step>, sent: usize, outcome: Outcome) -> (KernelStep, Option<Running>)
    ensures { (move_of result.0, result.1) ≡ next_step (verdict_of outcome) (drop sent steps.items) }
{
    match steps.get(sent) {
        None => (KernelStep::Done(outcome), None),
        Some(step) => {
            let Step { send, want, other } = step;
            let send = send.copy();
            let awaited = Awaited {
                want: *want,
                other: *other,
            };
            let running = Running {
                awaited: Some(awaited),
                steps,
                sent: sent + 1,
                outcome,
            };
            (KernelStep::Send(send), Some(running))
        }
    }
}

// What follows an answer to the step that was sent.
fn answer(running: Running, last: Option<&Response>) -> (KernelStep, Option<Running>)
    ensures { (move_of result.0, result.1) ≡ answered running.verdict running.steps running.awaited (option_copied last.entry) }
{
    let Running {
        awaited,
        steps,
        sent,
        outcome,
    } = running;
    match (awaited, last) {
        (Some(awaited), Some(response)) => {
            let Awaited { want, other } = awaited;
            if response.sw() == want {
                go_on(steps, sent, outcome)
            } else {
                (KernelStep::Done(other), None)
            }
        }
        _ => go_on(steps, sent, outcome),
    }
}

// What a kernel does next, and what runs after it.
fn next(running: Option<Running>, last: Option<&Response>) -> (KernelStep, Option<Running>)
    ensures { (move_of result.0, result.1) ≡ running_step running (option_copied last.entry) }
{
    match running {
        None => {
            let outcome = Outcome {
                kind: OutcomeKind::EndApplication,
                message: None,
            };
            (KernelStep::Done(outcome), None)
        }
        Some(running) => answer(running, last),
    }
}

impl Kernels for Scripts {
    ghost use Rattle.ep_rules.specs.EntryPoint.Kernel.{Scripted, scripted};
    ghost use Rattle.kernel_port.specs.Scripts.{scripted_of};

    ghost State = { Scripted };

    ghost state = { scripted_of };

    ghost steps = { scripted };

    ghost is_open = { λ s. s.active };

    ghost is_fresh = { λ s. s.fresh };

    fn begin(&mut self, activation: &Activation) {
        self.active = true;
        self.fresh = true;
        self.running = run_script(take_script(&mut self.list, activation.kernel()));
    }

    fn step(&mut self, last: Option<&Response>) -> KernelStep {
        self.fresh = false;
        let (step, running) = next(self.running.take(), last);
        self.active = matches!(step, KernelStep::Send(_));
        self.running = running;
        step
    }
}
