//! A reader against a card, in frames as they are sent.
use rf_frame::{CardHear, CardKind, FrameBuf, Heard, RoundEnd, Wave};
use std::process::Abort;
use type_b::{BCard, BPlan, BReader};

fn framed(rt: &impl Abort, bytes: &[u8]) -> FrameBuf {
    let mut frame = FrameBuf::new();
    let Ok(()) = frame.try_extend_from_slice(bytes) else {
        panic!(rt; "the frame is too long");
    };
    frame
}

fn heard(rt: &impl Abort, bytes: &[u8]) -> Heard {
    Heard::Frame {
        wave: Wave::B,
        bytes: framed(rt, bytes),
    }
}

const ATQB: &[u8] = b"\x50\x11\x22\x33\x44\x00\x00\x00\x00\x00\x81\x40\xdc\x88";

const ATTRIB: &[u8] = b"\x1d\x11\x22\x33\x44\x00\x08\x01\x00\xdb\x35";

// What a card of Type B does with WUPB and with ATTRIB.
#[test]
fn answers_as_sent(rt: HostRuntime) {
    let mut card = BCard::open(BPlan {
        pupi: [0x11, 0x22, 0x33, 0x44],
        app_data: [0; 4],
        fsci: 8,
        fwi: 4,
        iso4: true,
    });
    let wupb = framed(&rt, b"\x05\x00\x08\x39\x73");
    let CardHear::Send(atqb) = card.hear(Wave::B, &wupb) else {
        panic!(rt; "no answer");
    };
    assert!(rt; (atqb.wave, atqb.frame.as_slice()) == (Wave::B, ATQB));
    let CardHear::Opened { answer, fsd } = card.hear(Wave::B, &framed(&rt, ATTRIB)) else {
        panic!(rt; "no block protocol");
    };
    assert!(rt; (answer.wave, fsd) == (Wave::B, 256));
    assert!(rt; answer.frame.as_slice() == b"\x00\x78\xf0".as_slice());
}

// What a reader asks of that card.
#[test]
fn questions_as_sent(rt: HostRuntime) {
    let mut reader = BReader::open(8);
    let None = reader.found(&heard(&rt, ATQB)) else {
        panic!(rt; "the round ended");
    };
    let attrib = reader.ask();
    assert!(rt; (attrib.wave, attrib.frame.as_slice()) == (Wave::B, ATTRIB));
    let end = reader.heard(&heard(&rt, b"\x00\x78\xf0"));
    let Some(RoundEnd::Card(card)) = end else {
        panic!(rt; "no card");
    };
    assert!(rt; card.id.as_slice() == b"\x11\x22\x33\x44".as_slice());
    assert!(rt; (card.kind, card.fsc, card.fwi) == (CardKind::B, 256, 4));
}
