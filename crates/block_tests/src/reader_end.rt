//! Frames and hearings from outside.
ghost use Rattle.std.specs.Prelude.{◌≡◌, ◌≤◌, ◌<◌, true, length};
ghost use Rattle.block_reader.specs.Stands.{held, is_open, is_resting};

use apdu::Command;
use arrayvec::ArrayVec;
use block_reader::{Breach, LinkEnd, Next, Phase, ReaderEnd};
use ep_base::{CardKind, FRAME, MESSAGE, Wave};
use rf_frame::{Activated, Ask, Heard, sent_message};
use std::process::Abort;

fn end_to(fsc: u16, fsdi: u8) -> ReaderEnd
    requires { (16 ≤ fsc) × (fsc ≤ FRAME) × (fsdi < 16) }
    ensures { is_resting (held result) ≡ true }
{
    let card = Activated {
        kind: CardKind::A,
        id: ArrayVec::try_from(b"\x01\x02\x03\x04".as_slice()).unwrap(),
        fsc,
        fwi: 4,
    };
    ReaderEnd::open(&card, fsdi)
}

fn frame(wave: Wave, message: &[u8]) -> Heard
    requires { length message.now ≤ MESSAGE }
{
    Heard::Frame {
        wave,
        bytes: sent_message(wave, message).frame,
    }
}

/// The next question after a hearing: how its frame begins, and its waiting number.
fn asks(rt: &impl Abort, end: &mut ReaderEnd, heard: &Heard, start: &[u8], wait: u32) -> Ask
    requires { is_open (held end.old) ≡ true }
    ensures { is_open (held end.new) ≡ true }
{
    let Next::Ask(ask) = end.heard(heard) else {
        panic!(rt; "no question");
    };
    assert!(rt; ask.frame.as_slice().starts_with(start));
    assert!(rt; ask.wait == wait);
    ask
}

fn asks_four_times(rt: &impl Abort, end: &mut ReaderEnd, heard: &Heard, start: &[u8], wait: u32)
    requires { is_open (held end.old) ≡ true }
    ensures { is_open (held end.new) ≡ true }
{
    asks(rt, end, heard, start, wait);
    asks(rt, end, heard, start, wait);
    asks(rt, end, heard, start, wait);
    asks(rt, end, heard, start, wait);
}

/// The response after a message that is heard.
fn gives(rt: &impl Abort, end: &mut ReaderEnd, message: &[u8], wanted: &[u8])
    requires open { is_open (held end.old) ≡ true }
    requires short { length message.now ≤ MESSAGE }
    ensures { is_resting (held end.new) ≡ true }
{
    let Next::Done(response) = end.heard(&frame(Wave::A, message)) else {
        panic!(rt; "no response");
    };
    assert!(rt; response.bytes() == wanted);
}

fn fails(rt: &impl Abort, end: &mut ReaderEnd, heard: &Heard) -> LinkEnd
    requires { is_open (held end.old) ≡ true }
{
    let Next::Failed(failed) = end.heard(heard) else {
        panic!(rt; "it goes on");
    };
    failed
}

/// A message that no rule allows after so many S(WTX).
fn breaks(rt: &impl Abort, end: &mut ReaderEnd, message: &[u8], wtx: u8)
    requires open { is_open (held end.old) ≡ true }
    requires short { length message.now ≤ MESSAGE }
{
    let breach = Breach {
        frame: sent_message(Wave::A, message).frame,
        number: 0,
        phase: Phase::Sending,
        wtx,
    };
    let failed = fails(rt, end, &frame(Wave::A, message));
    assert!(rt; failed == LinkEnd::Breach(breach));
}

#[test]
fn the_frames_of_a_whole_link(rt: HostRuntime) {
    let mut end = end_to(256, 8);
    end.begin(&Command::select(b"2PAY.SYS.DDF01"));
    let lost = asks(&rt, &mut end, &Heard::Silence, b"\xb2\x67\xc7", 16);
    assert!(rt; lost.frame.len() == 3);
    asks(&rt, &mut end, &frame(Wave::A, b"\xf2\x43"), b"\xf2\x03", 48);
    gives(&rt, &mut end, b"\x02\x6a\x82", b"\x6a\x82");
    assert!(rt; (end.number(), end.bad()) == (1, 0));
    let last = end.deselect();
    assert!(rt; last.frame.as_slice() == b"\xc2\xe0\xb4".as_slice());
    assert!(rt; last.wait == 16);
}

#[test]
fn seventeen_waits(rt: HostRuntime) {
    let mut end = end_to(256, 8);
    let wait = frame(Wave::A, b"\xf2\x3b");
    end.begin(&Command::select(b"2PAY.SYS.DDF01"));
    asks_four_times(&rt, &mut end, &wait, b"\xf2\x3b", 944);
    asks_four_times(&rt, &mut end, &wait, b"\xf2\x3b", 944);
    asks_four_times(&rt, &mut end, &wait, b"\xf2\x3b", 944);
    asks_four_times(&rt, &mut end, &wait, b"\xf2\x3b", 944);
    breaks(&rt, &mut end, b"\xf2\x3b", 16);
    assert!(rt; end.since_toggle().len() == 17);
}

#[test]
fn a_chained_command_and_a_chained_response(rt: HostRuntime) {
    let mut end = end_to(16, 0);
    let first = end.begin(&Command::select(b"2PAY.SYS.DDF01"));
    let start = b"\x12\x00\xa4\x04\x00\x0e2PAY.SYS";
    assert!(rt; first.frame.as_slice().starts_with(start));
    asks(&rt, &mut end, &frame(Wave::B, b"\xa2"), b"\xb2", 16);
    let again = asks(&rt, &mut end, &frame(Wave::A, b"\xa3"), start, 16);
    assert!(rt; again == first);
    asks(
        &rt,
        &mut end,
        &frame(Wave::A, b"\xa2"),
        b"\x03.DDF01\x00",
        16,
    );
    let more = asks(&rt, &mut end, &frame(Wave::A, b"\x13\x6f"), b"\xa2", 16);
    let again = asks(&rt, &mut end, &Heard::Overlap, b"\xa2", 16);
    assert!(rt; again == more);
    gives(&rt, &mut end, b"\x02\x00\x90\x00", b"\x6f\x00\x90\x00");
    assert!(rt; end.number() == 1);
}

#[test]
fn frames_that_are_damaged(rt: HostRuntime) {
    let mut end = end_to(256, 0);
    end.begin(&Command::select(b"2PAY.SYS.DDF01"));
    let damaged = Heard::Frame {
        wave: Wave::A,
        bytes: ArrayVec::try_from([0u8; 17].as_slice()).unwrap(),
    };
    asks(&rt, &mut end, &damaged, b"\xb2", 16);
    asks(&rt, &mut end, &damaged, b"\xb2", 16);
    assert!(rt; fails(&rt, &mut end, &damaged) == LinkEnd::Spent { bad: 3 });
    assert!(rt; (end.bad(), end.since_toggle().len()) == (3, 3));
}

#[test]
fn a_frame_that_is_too_long(rt: HostRuntime) {
    let long = b"\x02\x01\x02\x03\x04\x05\x06\x07\x08\x09\x0a\x0b\x0c\x90\x00";
    let mut end = end_to(256, 0);
    end.begin(&Command::select(b"2PAY.SYS.DDF01"));
    breaks(&rt, &mut end, long, 0);
}
