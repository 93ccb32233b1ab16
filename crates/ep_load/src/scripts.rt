//! The scripts of a load's kernels.
ghost use Rattle.std.specs.Prelude.{◌≡◌, IfOk};
ghost use Rattle.kernel_port.specs.Outcome.{verdict_of};
ghost use Rattle.ep_load.specs.Scripts.{approved, verdict_drawn, step, script_of, scripts_drawn};

use crate::draws::Draws;
use crate::memory::list_of;
use crate::terms::chosen;
use apdu::{Command, SUCCESS};
use ep_base::{Message, NoMemory, OutcomeKind};
use kernel_port::{Outcome, Script, Step};
use std::alloc::Global;

const APPROVED: Outcome = Outcome {
    kind: OutcomeKind::Approved,
    message: Some(Message::Approved),
};

const DECLINED: Outcome = Outcome {
    kind: OutcomeKind::Declined,
    message: Some(Message::NotAuthorised),
};

const ONLINE: Outcome = Outcome {
    kind: OutcomeKind::OnlineRequest,
    message: None,
};

const AGAIN: Outcome = Outcome {
    kind: OutcomeKind::TryAgain,
    message: Some(Message::PresentAgain),
};

const END: Outcome = Outcome {
    kind: OutcomeKind::EndApplication,
    message: None,
};

// The outcome of a draw.
fn outcome_drawn(outcome: u16) -> Outcome
    ensures { verdict_of result ≡ verdict_drawn outcome }
{
    if outcome == 0 {
        APPROVED
    } else if outcome == 1 {
        DECLINED
    } else if outcome == 2 {
        ONLINE
    } else {
        AGAIN
    }
}

// The command of every script.
#[tactic(auto, unfolding(ep_base::specs::Cards::Apdu::is_command))]
fn step() -> Step
    ensures { result ≡ step }
{
    Step {
        send: Command::of(&[0x80, 0xa8, 0x00, 0x00, 0x02, 0x83, 0x00, 0x00]).unwrap(),
        want: SUCCESS,
        other: END,
    }
}

// The script of a kernel with this outcome.
fn script_of(alloc: Global, kernel: u32, outcome: Outcome) -> Result<Script, NoMemory>
    ensures { IfOk result (λ s. s ≡ script_of kernel (verdict_of outcome)) }
{
    let steps = list_of(alloc, step())?;
    Ok(Script {
        kernel,
        steps,
        outcome,
    })
}

// The scripts of a transaction.
pub(crate) fn scripts_drawn(alloc: Global, draws: &Draws) -> Result<Vec<Script>, NoMemory>
    ensures { IfOk result (λ v. v.items ≡ scripts_drawn draws.now) }
{
    let kernel = chosen(draws.choice).kernel;
    let script = script_of(alloc, kernel, outcome_drawn(draws.outcome))?;
    let mut scripts = list_of(alloc, script)?;
    if draws.outcome == 3 {
        let second = script_of(alloc, kernel, APPROVED)?;
        if scripts.push(second).is_err() {
            return Err(NoMemory);
        }
    }
    Ok(scripts)
}
