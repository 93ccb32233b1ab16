//! Kernels through the trait's bound, as a session calls them.
ghost use Rattle.std.specs.Prelude.{◌≡◌, false};
ghost use Rattle.kernel_port.specs.Kernels.{is_send};

use apdu::{Command, Response};
use ep_base::Buf;
use kernel_port::{
    Activation, KernelStep, Kernels, Message, Outcome, OutcomeKind, Script, Scripts, Step,
};
use pre_processing::Indicators;
use std::test::Fail;

// Activates a kernel and makes its first step.
fn first_step<K: Kernels>(kernels: &mut K, kernel: u32) -> KernelStep
    ensures open_then { K.is_open kernels.new ≡ is_send result }
    ensures fresh_then { K.is_fresh kernels.new ≡ false }
{
    let activation = Activation {
        kernel,
        combination: 1,
        name: Buf::new(),
        indicators: Indicators {
            not_allowed: false,
            status: false,
            zero: false,
            floor: false,
            cvm: false,
        },
        ttq: None,
        fci: Buf::new(),
    };
    kernels.begin(&activation.copy());
    kernels.step(None)
}

fn outcome_of(step: KernelStep) -> Option<Outcome> {
    match step {
        KernelStep::Done(outcome) => Some(outcome),
        KernelStep::Send(_) => None,
    }
}

const SELECT_NEXT: Outcome = Outcome {
    kind: OutcomeKind::SelectNext,
    message: None,
};

const TRY_AGAIN: Outcome = Outcome {
    kind: OutcomeKind::TryAgain,
    message: Some(Message::PresentAgain),
};

const APPROVED: Outcome = Outcome {
    kind: OutcomeKind::Approved,
    message: Some(Message::Approved),
};

const DECLINED: Outcome = Outcome {
    kind: OutcomeKind::Declined,
    message: Some(Message::NotAuthorised),
};

const END: Outcome = Outcome {
    kind: OutcomeKind::EndApplication,
    message: None,
};

#[test]
fn each_kernel_has_scripts_of_its_own(rt: HostRuntime) -> Result<(), Fail> {
    let mut list = Vec::new(rt.alloc());
    for (kernel, outcome) in [
        (3, SELECT_NEXT),
        (2, DECLINED),
        (3, TRY_AGAIN),
        (3, APPROVED),
    ] {
        list.push(Script {
            kernel,
            steps: Vec::new(rt.alloc()),
            outcome,
        })?;
    }
    let mut kernels = Scripts::of(list);
    for (kernel, wanted) in [
        (3, SELECT_NEXT),
        (3, TRY_AGAIN),
        (2, DECLINED),
        (4, END),
        (3, APPROVED),
        (3, END),
        (2, END),
    ] {
        let outcome = outcome_of(first_step(&mut kernels, kernel));
        assert!(rt; outcome == Some(wanted), "kernel {kernel}");
    }
    Ok(())
}

#[test]
fn steps_want_their_status_words(rt: HostRuntime) -> Result<(), Fail> {
    let get_processing_options = b"\x80\xa8\x00\x00\x02\x83\x00\x00";
    for (response, wanted) in [(b"\x80\x00\x90\x00", APPROVED), (b"\x00\x90\x69\x85", END)] {
        let send = Command::of(get_processing_options).map_err(|_| "no command")?;
        let mut steps = Vec::new(rt.alloc());
        steps.push(Step {
            send,
            want: 0x9000,
            other: END,
        })?;
        let mut list = Vec::new(rt.alloc());
        list.push(Script {
            kernel: 3,
            steps,
            outcome: APPROVED,
        })?;
        let mut kernels = Scripts::of(list);
        match first_step(&mut kernels, 3) {
            KernelStep::Done(_) => assert!(rt; false, "no command was sent"),
            KernelStep::Send(command) => {
                assert!(rt; command.bytes() == get_processing_options.as_slice());
                let response = Response::of(response).map_err(|_| "no response")?;
                let outcome = outcome_of(kernels.step(Some(&response)));
                assert!(rt; outcome == Some(wanted));
            }
        }
    }
    Ok(())
}
