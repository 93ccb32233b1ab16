//! One card under fates, exchange by exchange.
ghost use Rattle.std.specs.Prelude.{All};
ghost use Rattle.rf_field.specs.Meaning.{IsRun};

use apdu::Command;
use ep_base::{FrameBuf, Wave};
use rf_field::{Burst, CardImage, CardKind, Fate, FateRun, Medium, Way, Wire};
use rf_frame::Heard;
use std::process::Abort;

// SELECT PPSE, its answer by an image without responses, R(NAK) 0 and S(DESELECT).
const SELECT: [u8; 23] = *b"\x02\x00\xa4\x04\x00\x0e2PAY.SYS.DDF01\x00\xe0\x42";

const NOT_FOUND: [u8; 5] = *b"\x02\x6a\x82\x93\x2f";

const NAK: [u8; 3] = *b"\xb2\x67\xc7";

const DESELECT: [u8; 3] = *b"\xc2\xe0\xb4";

// The fate of one exchange.
fn one(down: Way, up: Way) -> FateRun
    ensures { IsRun result }
{
    FateRun::One(Fate { down, up })
}

// Makes one exchange and compares what is heard.
fn exchange(rt: &impl Abort, wire: &mut Wire, sent: &[u8], wanted: &[u8]) {
    let mut frame = FrameBuf::new();
    if frame.try_extend_from_slice(sent).is_err() {
        panic!(rt; "the frame is too long");
    }
    match wire.send(Wave::A, &frame, 16) {
        Ok(Heard::Silence) => assert!(rt; wanted.is_empty(), "silence after {sent:?}"),
        Ok(Heard::Frame { bytes, .. }) => assert!(rt; bytes.as_slice() == wanted),
        _ => panic!(rt; "no hearing"),
    }
}

// A wire to a card whose image has no responses.
fn wire(rt: &(impl Abort + AllocGlobal), fates: Vec<FateRun>, room: usize) -> Wire
    requires { All IsRun fates.items }
{
    let Ok(image) = CardImage::open(rt.alloc(), 1, Vec::new(rt.alloc()), Vec::new(rt.alloc()))
    else {
        panic!(rt; "memory");
    };
    let Ok(wire) = Wire::open(rt.alloc(), CardKind::A, 256, image, fates, room) else {
        panic!(rt; "memory");
    };
    wire
}

#[test]
fn frames_and_answers_are_lost_or_damaged(rt: HostRuntime) {
    let first = Way::Burst(Burst { start: 0, mask: 1 });
    let past = Way::Burst(Burst {
        start: 40,
        mask: 0xffff,
    });
    let fates = vec![in rt.alloc();
        one(Way::Lose, Way::Pass),
        one(Way::Pass, Way::Lose),
        FateRun::Clean(2),
        one(first, Way::Pass),
        one(Way::Pass, first),
        one(Way::Pass, past),
    ]
    .ok()
    .expect(&rt, "memory");
    let mut wire = wire(&rt, fates, 2);
    exchange(&rt, &mut wire, &SELECT, b"");
    exchange(&rt, &mut wire, &SELECT, b"");
    exchange(&rt, &mut wire, &NAK, &NOT_FOUND);
    exchange(&rt, &mut wire, &NAK, &NOT_FOUND);
    exchange(&rt, &mut wire, &NAK, b"");
    exchange(&rt, &mut wire, &NAK, b"\x03\x6a\x82\x93\x2f");
    exchange(&rt, &mut wire, &NAK, &NOT_FOUND);
    exchange(&rt, &mut wire, &DESELECT, &DESELECT);
    exchange(&rt, &mut wire, &NAK, b"");
    assert!(rt; wire.exchanges() == 9);
    let [executed] = wire.log().records() else {
        panic!(rt; "one command");
    };
    let select = Command::select(b"2PAY.SYS.DDF01");
    assert!(rt; (executed.card, executed.command.bytes()) == (1, select.bytes()));
}

// A card that leaves in the first exchange, and how often its command was executed.
fn leaves(rt: &(impl Abort + AllocGlobal), down: Way, up: Way, executed: usize) {
    let fates = vec![in rt.alloc(); one(down, up)].ok().expect(rt, "memory");
    let mut wire = wire(rt, fates, 2);
    exchange(rt, &mut wire, &SELECT, b"");
    assert!(rt; wire.reset().is_ok());
    exchange(rt, &mut wire, &SELECT, b"");
    assert!(rt; wire.log().records().len() == executed);
}

#[test]
fn a_card_that_left_doesnt_come_back(rt: HostRuntime) {
    leaves(&rt, Way::Leave, Way::Pass, 0);
    leaves(&rt, Way::Pass, Way::Leave, 1);
}

#[test]
fn a_card_doesnt_hear_while_the_log_is_full(rt: HostRuntime) {
    let mut wire = wire(&rt, Vec::new(rt.alloc()), 1);
    exchange(&rt, &mut wire, &SELECT, &NOT_FOUND);
    exchange(&rt, &mut wire, &NAK, b"");
    assert!(rt; wire.log().records().len() == 1);
}
