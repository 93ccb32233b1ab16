//! Cards together in a field, frame by frame.
ghost use Rattle.std.specs.Prelude.{All};
ghost use Rattle.rf_field.specs.Meaning.{IsRun};
ghost use Rattle.rf_field.specs.Plans.{PlanFits};

use ep_base::{FrameBuf, Wave};
use rf_field::{APlan, BPlan, Buf, CardImage, CardPlan, Fate, FateRun, Field, Medium, Way};
use rf_frame::Heard;
use std::process::Abort;

const WUPA: [u8; 1] = *b"\x52";

const HLTA: [u8; 4] = *b"\x50\x00\x57\xcd";

const WUPB: [u8; 5] = *b"\x05\x00\x08\x39\x73";

const ATQB: [u8; 14] = *b"\x50\x11\x22\x33\x44\x00\x00\x00\x00\x00\x81\x40\xdc\x88";

// The fate of one exchange.
fn one(down: Way, up: Way) -> FateRun
    ensures { IsRun result }
{
    FateRun::One(Fate { down, up })
}

// The numbers of the cards that are present.
fn numbers(rt: &impl Abort, present: &[u8]) -> Buf<4> {
    let mut list = Buf::<4>::new();
    let Ok(()) = list.try_extend_from_slice(present) else {
        panic!(rt; "too many cards");
    };
    list
}

// An image without responses.
fn image(rt: &(impl Abort + AllocGlobal), number: u8) -> CardImage {
    let Ok(image) = CardImage::open(
        rt.alloc(),
        number,
        Vec::new(rt.alloc()),
        Vec::new(rt.alloc()),
    ) else {
        panic!(rt; "memory");
    };
    image
}

// A card of Type A with this UID.
fn card_a(rt: &(impl Abort + AllocGlobal), number: u8, uid: &[u8]) -> CardPlan
    ensures { PlanFits result }
{
    if uid.len() != 4 && uid.len() != 7 && uid.len() != 10 {
        panic!(rt; "no such card");
    }
    let mut plan = APlan {
        uid: Buf::<10>::new(),
        sak: 0x20,
        fsci: 8,
        fwi: 4,
        historical: Buf::<15>::new(),
    };
    let Ok(()) = plan.uid.try_extend_from_slice(uid) else {
        panic!(rt; "the UID is too long");
    };
    CardPlan::A(plan, image(rt, number))
}

// A card of Type B.
fn card_b(rt: &(impl Abort + AllocGlobal), number: u8) -> CardPlan
    ensures { PlanFits result }
{
    let plan = BPlan {
        pupi: [0x11, 0x22, 0x33, 0x44],
        app_data: [0; 4],
        fsci: 8,
        fwi: 4,
        iso4: true,
    };
    CardPlan::B(plan, image(rt, number))
}

// A field of these cards.
fn opened(
    rt: &(impl Abort + AllocGlobal),
    cards: Vec<CardPlan>,
    presence: Vec<Buf<4>>,
    fates: Vec<FateRun>,
    room: usize,
) -> Field
    requires plans { All PlanFits cards.items }
    requires runs { All IsRun fates.items }
{
    let Ok(field) = Field::open(rt.alloc(), cards, presence, fates, room) else {
        panic!(rt; "memory");
    };
    field
}

// Makes one exchange and compares what is heard: overlapping answers where no bytes are wanted, silence where they are
// empty.
fn exchange(rt: &impl Abort, field: &mut Field, wave: Wave, sent: &[u8], wanted: Option<&[u8]>) {
    let mut frame = FrameBuf::new();
    if frame.try_extend_from_slice(sent).is_err() {
        panic!(rt; "the frame is too long");
    }
    match field.send(wave, &frame, 0) {
        Ok(Heard::Overlap) => assert!(rt; wanted.is_none(), "answers to {sent:?} overlap"),
        Ok(Heard::Silence) => assert!(rt; wanted == Some(b"".as_slice()), "silence after {sent:?}"),
        Ok(Heard::Frame { bytes, .. }) => assert!(rt; Some(bytes.as_slice()) == wanted),
        _ => panic!(rt; "no hearing"),
    }
}

// Makes the exchanges of a round with a card of Type A, up to the second level.
fn second_level(rt: &impl Abort, field: &mut Field, wanted: Option<&[u8]>) {
    exchange(rt, field, Wave::AShort, &WUPA, Some(b"\x44\x00"));
    exchange(
        rt,
        field,
        Wave::ABare,
        b"\x93\x20",
        Some(b"\x88\x04\x11\x22\xbf"),
    );
    let select = b"\x93\x70\x88\x04\x11\x22\xbf\xb3\xf9";
    exchange(rt, field, Wave::A, select, Some(b"\x04\xda\x17"));
    exchange(rt, field, Wave::ABare, b"\x95\x20", wanted);
}

#[test]
fn two_cards_collide_at_a_level(rt: HostRuntime) {
    let first = card_a(&rt, 1, b"\x04\x11\x22\x33\x44\x55\x66");
    let second = card_a(&rt, 2, b"\x04\x11\x22\x77\x88\x99\xaa");
    let cards = vec![in rt.alloc(); first, second]
        .ok()
        .expect(&rt, "memory");
    let (both, one) = (numbers(&rt, &[1, 2]), numbers(&rt, &[2]));
    let presence = vec![in rt.alloc(); both, one].ok().expect(&rt, "memory");
    let mut field = opened(&rt, cards, presence, Vec::new(rt.alloc()), 1);
    assert!(rt; field.reset().is_ok());
    exchange(&rt, &mut field, Wave::AShort, &WUPA, Some(b"\x44\x00"));
    exchange(&rt, &mut field, Wave::A, &HLTA, Some(b""));
    exchange(&rt, &mut field, Wave::B, &WUPB, Some(b""));
    second_level(&rt, &mut field, None);
    assert!(rt; (field.rounds(), field.exchanges()) == (1, 7));
    for _ in 0..2 {
        assert!(rt; field.reset().is_ok());
        second_level(&rt, &mut field, Some(b"\x77\x88\x99\xaa\xcc"));
    }
    assert!(rt; (field.rounds(), field.exchanges()) == (3, 15));
}

#[test]
fn cards_leave_and_dont_come_back(rt: HostRuntime) {
    let card = card_a(&rt, 1, b"\x01\x02\x03\x04");
    let cards = vec![in rt.alloc(); card].ok().expect(&rt, "memory");
    let leave = one(Way::Pass, Way::Leave);
    let fates = vec![in rt.alloc(); FateRun::Clean(2), leave]
        .ok()
        .expect(&rt, "memory");
    let mut field = opened(&rt, cards, Vec::new(rt.alloc()), fates, 1);
    exchange(&rt, &mut field, Wave::AShort, &WUPA, Some(b""));
    assert!(rt; field.reset().is_ok());
    exchange(&rt, &mut field, Wave::AShort, &WUPA, Some(b"\x04\x00"));
    assert!(rt; !field.gone());
    exchange(&rt, &mut field, Wave::AShort, &WUPA, Some(b""));
    assert!(rt; field.gone());
    exchange(&rt, &mut field, Wave::AShort, &WUPA, Some(b""));
    assert!(rt; field.reset().is_ok());
    exchange(&rt, &mut field, Wave::AShort, &WUPA, Some(b""));
    assert!(rt; (field.rounds(), field.exchanges()) == (2, 5));
}

// SELECT PPSE as a first block of each type, and its answer by an image without responses.
const SELECT_A: &[u8] = b"\x02\x00\xa4\x04\x00\x0e2PAY.SYS.DDF01\x00\xe0\x42";

const SELECT_B: &[u8] = b"\x02\x00\xa4\x04\x00\x0e2PAY.SYS.DDF01\x00\x2a\x2d";

#[test]
fn a_card_of_each_type(rt: HostRuntime) {
    let first = card_b(&rt, 1);
    let second = card_a(&rt, 2, b"\x01\x02\x03\x04");
    let cards = vec![in rt.alloc(); first, second]
        .ok()
        .expect(&rt, "memory");
    let mut field = opened(&rt, cards, Vec::new(rt.alloc()), Vec::new(rt.alloc()), 3);
    let select = b"\x93\x70\x01\x02\x03\x04\x04\x8e\x25";
    let attrib = b"\x1d\x11\x22\x33\x44\x00\x08\x01\x00\xdb\x35";
    assert!(rt; field.reset().is_ok());
    exchange(&rt, &mut field, Wave::AShort, &WUPA, Some(b"\x04\x00"));
    exchange(&rt, &mut field, Wave::B, &WUPB, Some(&ATQB));
    exchange(
        &rt,
        &mut field,
        Wave::ABare,
        b"\x93\x20",
        Some(b"\x01\x02\x03\x04\x04"),
    );
    exchange(&rt, &mut field, Wave::A, select, Some(b"\x20\xfc\x70"));
    exchange(&rt, &mut field, Wave::A, SELECT_A, Some(b""));
    exchange(
        &rt,
        &mut field,
        Wave::A,
        b"\xe0\x80\x31\x73",
        Some(b"\x03\x28\x40\x87\xe5"),
    );
    exchange(&rt, &mut field, Wave::B, attrib, Some(b"\x00\x78\xf0"));
    exchange(
        &rt,
        &mut field,
        Wave::A,
        SELECT_A,
        Some(b"\x02\x6a\x82\x93\x2f"),
    );
    exchange(
        &rt,
        &mut field,
        Wave::B,
        SELECT_B,
        Some(b"\x02\x6a\x82\x4b\x4c"),
    );
    exchange(&rt, &mut field, Wave::AShort, &WUPA, Some(b""));
    exchange(
        &rt,
        &mut field,
        Wave::A,
        b"\xc2\xe0\xb4",
        Some(b"\xc2\xe0\xb4"),
    );
    exchange(&rt, &mut field, Wave::AShort, &WUPA, Some(b"\x04\x00"));
    assert!(rt; field.reset().is_ok());
    exchange(&rt, &mut field, Wave::B, SELECT_B, Some(b""));
    exchange(&rt, &mut field, Wave::B, &WUPB, Some(&ATQB));
    let [first, second] = field.log().records() else {
        panic!(rt; "two commands");
    };
    assert!(rt; (first.card, second.card) == (2, 1));
}

#[test]
fn plans_of_type_a(rt: HostRuntime) {
    let cards = vec![in rt.alloc(); card_b(&rt, 1), card_a(&rt, 2, b"\x01\x02\x03\x04")]
        .ok()
        .expect(&rt, "memory");
    let field = opened(&rt, cards, Vec::new(rt.alloc()), Vec::new(rt.alloc()), 1);
    for none in [0, 1, 3, 255] {
        assert!(rt; field.type_a(none).is_none());
    }
    let plan = field.type_a(2).expect(&rt, "a plan");
    assert!(rt; plan.uid.as_slice() == b"\x01\x02\x03\x04".as_slice());
    assert!(rt; plan.sak == 0x20);
}
