//! A reader against a card, and frames by hand.
ghost use Rattle.std.specs.Prelude.{IsSome};
ghost use Rattle.std.specs.Option.{IsNone};

use std::process::Abort;
use type_a::{
    ACard, APlan, AReader, Ats, AtsFault, Buf, CardHear, CardKind, Heard, RoundEnd, Sent, Wave,
    parse_ats,
};

/// A card with this UID, and with two historical bytes or none.
fn card(rt: &impl Abort, uid: &[u8], fwi: u8, historical: &[u8]) -> ACard {
    if uid.len() != 4 && uid.len() != 7 && uid.len() != 10 || fwi > 14 {
        panic!(rt; "no such card");
    }
    let mut plan = APlan {
        uid: Buf::<10>::new(),
        sak: 0x20,
        fsci: 8,
        fwi,
        historical: Buf::<15>::new(),
    };
    let Ok(()) = plan.uid.try_extend_from_slice(uid) else {
        panic!(rt; "the UID is too long");
    };
    let Ok(()) = plan.historical.try_extend_from_slice(historical) else {
        panic!(rt; "too many historical bytes");
    };
    ACard::open(plan)
}

/// What a reader hears of one card alone.
fn heard(answer: CardHear) -> Heard {
    match answer {
        CardHear::Mute | CardHear::Passed => Heard::Silence,
        CardHear::Send(Sent { wave, frame }) => Heard::Frame { wave, bytes: frame },
        CardHear::Opened { answer, .. } => Heard::Frame {
            wave: answer.wave,
            bytes: answer.frame,
        },
    }
}

/// One exchange.
fn exchange(reader: &mut AReader, card: &mut ACard) -> Option<RoundEnd>
    requires { IsSome reader.old.stage }
    ensures { IsNone result → IsSome reader.new.stage }
{
    let ask = reader.ask();
    reader.heard(&heard(card.hear(ask.wave, &ask.frame)))
}

/// One exchange after which the round goes on.
fn goes_on(rt: &impl Abort, reader: &mut AReader, card: &mut ACard)
    requires { IsSome reader.old.stage }
    ensures { IsSome reader.new.stage }
{
    let None = exchange(reader, card) else {
        panic!(rt; "the round ended");
    };
}

/// The question for a level and its selection.
fn selects(rt: &impl Abort, reader: &mut AReader, card: &mut ACard)
    requires { IsSome reader.old.stage }
    ensures { IsSome reader.new.stage }
{
    goes_on(rt, reader, card);
    goes_on(rt, reader, card);
}

/// A round with a card of this UID, which is found.
fn finds(rt: &impl Abort, uid: &[u8]) {
    let mut card = card(rt, uid, 7, b"\x80\x31");
    let mut reader = AReader::open(8);
    goes_on(rt, &mut reader, &mut card);
    if uid.len() > 4 {
        selects(rt, &mut reader, &mut card);
    }
    if uid.len() > 7 {
        selects(rt, &mut reader, &mut card);
    }
    selects(rt, &mut reader, &mut card);
    let Some(RoundEnd::Card(found)) = exchange(&mut reader, &mut card) else {
        panic!(rt; "no card");
    };
    assert!(rt; found.id.as_slice() == uid);
    assert!(rt; (found.kind, found.fsc, found.fwi) == (CardKind::A, 256, 7));
}

#[test]
fn uids_of_each_length(rt: HostRuntime) {
    finds(&rt, b"\x01\x02\x03\x04");
    finds(&rt, b"\x04\x11\x22\x33\x44\x55\x66");
    finds(&rt, b"\x88\x11\x22\x33\x44\x55\x66");
    finds(&rt, b"\x04\x11\x22\x33\x44\x55\x66\x77\x88\x99");
    finds(&rt, b"\x88\x11\x22\x88\x44\x55\x88\x77\x88\x99");
}

/// One exchange with these frames, after which the round goes on.
fn sends(rt: &impl Abort, reader: &mut AReader, card: &mut ACard, wanted: &[u8], answer: &[u8])
    requires { IsSome reader.old.stage }
    ensures { IsSome reader.new.stage }
{
    let ask = reader.ask();
    assert!(rt; (ask.reset, ask.wait, ask.frame.as_slice()) == (false, 0, wanted));
    let CardHear::Send(sent) = card.hear(ask.wave, &ask.frame) else {
        panic!(rt; "no answer");
    };
    assert!(rt; sent.frame.as_slice() == answer);
    let None = reader.heard(&heard(CardHear::Send(sent))) else {
        panic!(rt; "the round ended");
    };
}

#[test]
fn frames_as_sent(rt: HostRuntime) {
    let mut card = card(&rt, b"\x01\x02\x03\x04", 4, b"");
    let mut reader = AReader::open(8);
    sends(&rt, &mut reader, &mut card, b"\x52", b"\x04\x00");
    sends(
        &rt,
        &mut reader,
        &mut card,
        b"\x93\x20",
        b"\x01\x02\x03\x04\x04",
    );
    let select = b"\x93\x70\x01\x02\x03\x04\x04\x8e\x25";
    sends(&rt, &mut reader, &mut card, select, b"\x20\xfc\x70");
    let rats = reader.ask();
    assert!(rt; rats.frame.as_slice() == b"\xe0\x80\x31\x73".as_slice());
    let CardHear::Opened { answer, fsd } = card.hear(rats.wave, &rats.frame) else {
        panic!(rt; "no block protocol");
    };
    assert!(rt; (answer.wave, fsd) == (Wave::A, 256));
    assert!(rt; answer.frame.as_slice() == b"\x03\x28\x40\x87\xe5".as_slice());
    assert!(rt;
        reader
            .heard(&heard(CardHear::Opened { answer, fsd }))
            .is_some()
    );
}

#[test]
fn ats_rows(rt: HostRuntime) {
    assert!(rt; parse_ats(b"\x05\x78\x80\x70\x02") == Ok(Ats { fsc: 256, fwi: 7 }));
    assert!(rt; parse_ats(b"\x01") == Ok(Ats { fsc: 32, fwi: 4 }));
    assert!(rt; parse_ats(b"\x02\x78") == Err(AtsFault::Cut));
    assert!(rt; parse_ats(b"\x03\x28") == Err(AtsFault::LengthWrong));
}
