//! Cards, what they answer, and the fates of frames.
ghost use Rattle.std.specs.Prelude.{◌≡◌, ◌≤◌, All, IfOk, length};
ghost use Rattle.ep_base.specs.Cards.CardAnswer.{AreAnswers, IsApp, IsRule, unused};
ghost use Rattle.rf_field.specs.Meaning.{IsRun};

use apdu::{Command, Response};
use arrayvec::ArrayVec;
use card_image::{App, Rule};
use ep_base::{COMMAND, CardKind, RESPONSE};
use rf_field::{Fate, FateRun, Way};
use rf_frame::Activated;
use std::alloc::{AllocError, Global};
use std::process::Abort;

pub(crate) const SELECT_APP: &[u8] = b"\x00\xa4\x04\x00\x05\xa0\x00\x00\x00\x03\x00";

/// A card of Type A that was activated, with frames of this size.
pub(crate) fn card(fsc: u16) -> Activated
    ensures fsc { result.fsc ≡ fsc }
    ensures fwi { result.fwi ≡ 4 }
{
    Activated {
        kind: CardKind::A,
        id: ArrayVec::try_from(b"\x01\x02\x03\x04".as_slice()).unwrap(),
        fsc,
        fwi: 4,
    }
}

pub(crate) fn command(rt: &impl Abort, bytes: &[u8]) -> Command {
    let Ok(command) = Command::of(bytes) else {
        panic!(rt; "no command");
    };
    command
}

/// A command of 261 bytes.
pub(crate) fn longest_command(rt: &impl Abort) -> Command {
    let mut bytes = [0u8; COMMAND];
    bytes[0] = 0x80;
    bytes[4] = 0xff;
    command(rt, &bytes)
}

/// A response of 258 bytes.
pub(crate) fn longest_response() -> [u8; RESPONSE] {
    let mut response = [0x5au8; RESPONSE];
    response[252] = 1;
    response[253] = 2;
    response
}

pub(crate) fn one_response(rt: &(impl Abort + AllocGlobal), bytes: &[u8]) -> Vec<Response>
    ensures few { AreAnswers (unused result.items) }
    ensures some { length result.items ≡ 1 }
{
    let Ok(response) = Response::of(bytes) else {
        panic!(rt; "no response");
    };
    let mut list = Vec::new(rt.alloc());
    list.push(response).ok().expect(rt, "memory");
    list
}

/// An application that answers each command with CLA 80h so, once it was selected.
pub(crate) fn app(rt: &(impl Abort + AllocGlobal), response: &[u8], wtx: u8) -> App
    requires { wtx ≤ 8 }
    ensures { IsApp result }
{
    let rule = Rule {
        prefix: b"\x80".to_vec(rt.alloc()).ok().expect(rt, "memory"),
        responses: one_response(rt, response),
        wtx,
        wtxm: 3,
    };
    let mut rules = Vec::new(rt.alloc());
    rules.push(rule).ok().expect(rt, "memory");
    App {
        name: ArrayVec::try_from(b"\xa0\x00\x00\x00\x03".as_slice()).unwrap(),
        select: one_response(rt, b"\x90\x00"),
        wtx: 0,
        wtxm: 1,
        rules,
    }
}

/// What a letter stands for: an exchange whose answer is lost, one whose frame is lost, or so many that pass.
fn run(letter: u8) -> FateRun
    ensures { IsRun result }
{
    let (down, up) = match letter {
        b'a' => (Way::Pass, Way::Lose),
        b'f' => (Way::Lose, Way::Pass),
        b'4' => return FateRun::Clean(4),
        b'3' => return FateRun::Clean(3),
        _ => return FateRun::Clean(1),
    };
    FateRun::One(Fate { down, up })
}

fn all_runs(alloc: Global, letters: &[u8]) -> Result<Vec<FateRun>, AllocError>
    ensures { IfOk result (λ v. All IsRun v.items) }
{
    let mut fates = Vec::new(alloc);
    for letter in letters {
        fates.push(run(*letter))?;
    }
    Ok(fates)
}

/// The fates of these letters.
pub(crate) fn fates(rt: &(impl Abort + AllocGlobal), letters: &[u8]) -> Vec<FateRun>
    ensures { All IsRun result.items }
{
    all_runs(rt.alloc(), letters).ok().expect(rt, "memory")
}
