//! Kernels as a session sees them.
ghost use Rattle.std.specs.Prelude.{◌≡◌, ◌≤◌, Bool, true, false, is_none};
ghost use Rattle.std.specs.Option.{option_copied};
ghost use Rattle.ep_rules.specs.EntryPoint.Kernel.{KernelSteps};

use crate::{Activation, Outcome};
use apdu::{Command, Response};

/// What a kernel does next.
#[derive(Drop)]
pub enum KernelStep {
    /// It sends a command, and wants the response to it.
    Send(Command),
    /// It has decided, and is no longer open.
    Done(Outcome),
}

/// Kernels. At most one of them is open at a time.
pub trait Kernels {
    ghost use Rattle.ep_rules.specs.EntryPoint.KernelCounts.{CountsFall};
    ghost use Rattle.kernel_port.specs.Kernels.{move_of, is_send};

    /// What the kernels hold, in plain data.
    ghost State: { Type 0 };

    ghost state: { Self → State };

    /// What an activation and a step do, and how many commands and restarts a state has left.
    ghost steps: { KernelSteps State };

    /// Whether a kernel is open.
    ghost is_open: { Self → Bool };

    /// Whether the open kernel's first step is still to come.
    ghost is_fresh: { Self → Bool };

    /// Activates a kernel, whether one is open or not.
    fn begin(&mut self, activation: &Activation)
        ensures step { state self.new ≡ steps.begin (state self.old) activation.now }
        ensures commands { steps.commands (state self.new) ≤ steps.commands (state self.old) }
        ensures restarts { steps.restarts (state self.new) ≤ steps.restarts (state self.old) }
        ensures open_now { is_open self.new ≡ true }
        ensures fresh_now { is_fresh self.new ≡ true };

    /// The open kernel's next step. `last` is the response to its last command, and None at its first step.
    fn step(&mut self, last: Option<&Response>) -> KernelStep
        requires has_kernel { is_open self.old ≡ true }
        requires first { is_fresh self.old ≡ is_none last }
        ensures step { steps.step (state self.old) (option_copied last.entry) ≡ (move_of result, state self.new) }
        ensures counts { CountsFall steps (move_of result) (state self.old) (state self.new) }
        ensures open_then { is_open self.new ≡ is_send result }
        ensures fresh_then { is_fresh self.new ≡ false };
}
