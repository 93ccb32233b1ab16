//! The card's end, block by block.
ghost use Rattle.std.specs.Prelude.{◌≤◌};

use block_card::{CardEnd, CardKind, CardNext, Response};
use ep_base::MESSAGE;
use rf_frame::{Wave, open_frame};
use std::process::Abort;

const COMMAND: [u8; 4] = [0x00, 0xb2, 0x01, 0x0c];

// What the card sends, without its check bytes.
fn said(next: &CardNext) -> Option<&[u8]> {
    match next {
        CardNext::Send(frame) => open_frame(Wave::A, frame),
        CardNext::Mute | CardNext::Execute(_) => None,
    }
}

fn executed(next: &CardNext) -> Option<&[u8]> {
    match next {
        CardNext::Execute(command) => Some(command.bytes()),
        CardNext::Mute | CardNext::Send(_) => None,
    }
}

// A block, and what the card says to it.
fn says(rt: &impl Abort, end: &mut CardEnd, block: &[u8], wanted: Option<&[u8]>) {
    let next = end.receive(Some(block));
    assert!(rt; said(&next) == wanted, "at {block:?}");
}

// A block with which this command is there.
fn executes(rt: &impl Abort, end: &mut CardEnd, block: &[u8], command: &[u8]) {
    let next = end.receive(Some(block));
    assert!(rt; executed(&next) == Some(command));
}

// A response, for which time is asked so often with WTXM, and the first block that the card says.
fn answers(rt: &impl Abort, end: &mut CardEnd, bytes: &[u8], wtx: u8, wtxm: u8, wanted: &[u8])
    requires waits { wtx ≤ 8 }
    requires least { 1 ≤ wtxm }
    requires most { wtxm ≤ 59 }
{
    let Ok(response) = Response::of(bytes) else {
        panic!(rt; "no response");
    };
    let frame = end.answer(&response, wtx, wtxm);
    assert!(rt; open_frame(Wave::A, &frame) == Some(wanted));
}

#[test]
fn a_command_in_two_parts(rt: HostRuntime) {
    let mut end = CardEnd::open(CardKind::A, 256);
    says(&rt, &mut end, b"\x12\x00\xb2", Some(b"\xa2"));
    let next = end.receive(None);
    assert!(rt; (said(&next), executed(&next)) == (None, None));
    executes(&rt, &mut end, b"\x03\x01\x0c", &COMMAND);
    answers(&rt, &mut end, b"\x90\x00", 0, 1, b"\x03\x90\x00");
}

#[test]
fn a_response_in_two_parts_of_which_one_is_lost(rt: HostRuntime) {
    let mut end = CardEnd::open(CardKind::A, 16);
    let response = b"\x01\x02\x03\x04\x05\x06\x07\x08\x09\x0a\x0b\x0c\x0d\x0e\x90\x00";
    let part = b"\x12\x01\x02\x03\x04\x05\x06\x07\x08\x09\x0a\x0b\x0c\x0d";
    executes(&rt, &mut end, b"\x02\x00\xb2\x01\x0c", &COMMAND);
    answers(&rt, &mut end, response, 0, 1, part);
    says(&rt, &mut end, b"\xb2", Some(part));
    says(&rt, &mut end, b"\xb3", Some(b"\xa2"));
    says(&rt, &mut end, b"\xa2", Some(b"\xa2"));
    says(&rt, &mut end, b"\xa3", Some(b"\x03\x0e\x90\x00"));
    says(&rt, &mut end, b"\xa3", Some(b"\x03\x0e\x90\x00"));
    says(&rt, &mut end, b"\xb3", Some(b"\x03\x0e\x90\x00"));
    says(&rt, &mut end, b"\xa2", None);
}

#[test]
fn time_is_asked_for_twice(rt: HostRuntime) {
    let mut end = CardEnd::open(CardKind::A, 256);
    executes(&rt, &mut end, b"\x02\x00\xb2\x01\x0c", &COMMAND);
    answers(&rt, &mut end, b"\x90\x00", 2, 3, b"\xf2\x03");
    says(&rt, &mut end, b"\xb2", Some(b"\xf2\x03"));
    says(&rt, &mut end, b"\xf2\x43", Some(b"\xf2\x03"));
    says(&rt, &mut end, b"\xf2\x03", Some(b"\x02\x90\x00"));
    says(&rt, &mut end, b"\xf2\x03", None);
}

#[test]
fn too_long_a_command_is_dropped(rt: HostRuntime) {
    let mut end = CardEnd::open(CardKind::A, 256);
    let mut longest = [0u8; MESSAGE];
    longest[0] = 0x12;
    says(&rt, &mut end, &longest, Some(b"\xa2"));
    says(
        &rt,
        &mut end,
        b"\x13\x00\x00\x00\x00\x00\x00\x00\x00",
        Some(b"\xa3"),
    );
    says(&rt, &mut end, b"\x02\x00", None);
    says(&rt, &mut end, b"\xb3", Some(b"\xa3"));
    executes(&rt, &mut end, b"\x02\x00\xb2\x01\x0c", &COMMAND);
}

#[test]
fn bytes_that_are_no_command_and_a_halt(rt: HostRuntime) {
    let mut end = CardEnd::open(CardKind::A, 16);
    says(&rt, &mut end, b"\xb2", Some(b"\xa3"));
    says(&rt, &mut end, b"\x02\x00\xa4\x04", Some(b"\x02\x67\x00"));
    says(&rt, &mut end, b"\x03", Some(b"\x03\x67\x00"));
    says(&rt, &mut end, b"\xe2", None);
    let CardNext::Send(frame) = end.receive(Some(b"\xc2")) else {
        panic!(rt; "no answer");
    };
    assert!(rt; frame.as_slice() == b"\xc2\xe0\xb4".as_slice());
    assert!(rt; end.halted());
    says(&rt, &mut end, b"\xc2", None);
    says(&rt, &mut end, b"\x02\x00\xb2\x01\x0c", None);
}
