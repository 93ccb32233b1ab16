//! Cards alone in a medium, a medium that fails, and the frames of a round.
ghost use Rattle.std.specs.Prelude.{IsSome};

use ep_base::ROUNDS;
use poll_activate::{Poll, PollEnd, Rounds, poll, round};
use rf_frame::{
    Activated, Buf, CardHear, CardKind, FrameBuf, Heard, Medium, RfFailed, RoundEnd, Sent, Wave,
};
use std::process::Abort;
use type_a::{ACard, APlan};
use type_b::{BCard, BPlan};

/// At most one card of each type, which tell nothing of themselves, and how many frames were sent.
#[derive(Drop)]
struct Cards {
    a: Option<ACard>,
    b: Option<BCard>,
    exchanges: u32,
}

/// What a reader hears of one card.
fn heard(answer: CardHear) -> Heard {
    match answer {
        CardHear::Mute | CardHear::Passed => Heard::Silence,
        CardHear::Send(Sent { wave, frame }) => Heard::Frame { wave, bytes: frame },
        CardHear::Opened { answer, .. } => Heard::Frame {
            wave: answer.wave,
            bytes: answer.frame,
        },
    }
}

impl Medium for Cards {
    ghost use Rattle.std.specs.Prelude.{ℕ};
    ghost use Rattle.ep_base.specs.Air.Medium.{untold};

    ghost State = { Unit {0} };

    ghost state = { λ _. tt };

    ghost steps = { untold };

    ghost faults = { λ _. 0 };

    fn reset(&mut self) -> Result<(), RfFailed> {
        if let Some(card) = &mut self.a {
            card.reset();
        }
        if let Some(card) = &mut self.b {
            card.reset();
        }
        Ok(())
    }

    fn send(&mut self, wave: Wave, frame: &FrameBuf, _wait: u32) -> Result<Heard, RfFailed> {
        self.exchanges = self.exchanges.saturating_add(1);
        let a = match &mut self.a {
            Some(card) => heard(card.hear(wave, frame)),
            None => Heard::Silence,
        };
        let b = match &mut self.b {
            Some(card) => heard(card.hear(wave, frame)),
            None => Heard::Silence,
        };
        if a.is_silent() {
            return Ok(b);
        }
        if b.is_silent() {
            return Ok(a);
        }
        Ok(Heard::Overlap)
    }
}

fn card_a(rt: &impl Abort, uid: &[u8]) -> ACard {
    if uid.len() != 4 && uid.len() != 7 && uid.len() != 10 {
        panic!(rt; "no such card");
    }
    let mut plan = APlan {
        uid: Buf::<10>::new(),
        sak: 0x20,
        fsci: 8,
        fwi: 4,
        historical: Buf::<15>::new(),
    };
    let Ok(()) = plan.uid.try_extend_from_slice(uid) else {
        panic!(rt; "the UID is too long");
    };
    ACard::open(plan)
}

fn card_b(iso4: bool) -> BCard {
    BCard::open(BPlan {
        pupi: [0x11, 0x22, 0x33, 0x44],
        app_data: [0; 4],
        fsci: 8,
        fwi: 4,
        iso4,
    })
}

/// Compares a card with this one of its kind.
fn is_found(rt: &impl Abort, card: &Activated, kind: CardKind, id: &[u8]) {
    assert!(rt; card.id.as_slice() == id);
    assert!(rt; (card.kind, card.fsc, card.fwi) == (kind, 256, 4));
}

/// A medium with these cards.
fn with_cards(a: Option<ACard>, b: Option<BCard>) -> Cards {
    Cards { a, b, exchanges: 0 }
}

/// A round over this medium that ends with this card after so many exchanges.
fn ends_with(rt: &impl Abort, medium: &mut Cards, kind: CardKind, id: &[u8], exchanges: u32) {
    let Ok(RoundEnd::Card(card)) = round(medium, 8) else {
        panic!(rt; "no card");
    };
    is_found(rt, &card, kind, id);
    assert!(rt; medium.exchanges == exchanges, "{id:?}");
}

/// A round with one card of Type A.
fn finds(rt: &impl Abort, uid: &[u8], exchanges: u32) {
    let mut medium = with_cards(Some(card_a(rt, uid)), None);
    ends_with(rt, &mut medium, CardKind::A, uid, exchanges);
}

#[test]
fn rounds_with_one_card_of_type_a(rt: HostRuntime) {
    finds(&rt, b"\x01\x02\x03\x04", 7);
    finds(&rt, b"\x04\x11\x22\x33\x44\x55\x66", 9);
    finds(&rt, b"\x04\x11\x22\x33\x44\x55\x66\x77\x88\x99", 11);
}

#[test]
fn rounds_with_one_card_of_type_b(rt: HostRuntime) {
    let mut medium = with_cards(None, Some(card_b(true)));
    ends_with(&rt, &mut medium, CardKind::B, b"\x11\x22\x33\x44", 3);
    let mut medium = with_cards(None, Some(card_b(false)));
    assert!(rt; round(&mut medium, 8) == Ok(RoundEnd::Unsupported));
    assert!(rt; medium.exchanges == 2);
}

/// Polls until so many exchanges were made and all rounds have ended so, without a card.
fn polls(rt: &impl Abort, medium: &mut Cards, exchanges: u32, wanted: &RoundEnd) {
    let mut rounds = Rounds::new();
    assert!(rt; poll(medium, 8, &mut rounds) == Err(PollEnd::NoCard));
    assert!(rt; medium.exchanges == exchanges);
    assert!(rt; rounds.len() == ROUNDS);
    for end in rounds.as_slice() {
        assert!(rt; end == wanted);
    }
}

#[test]
fn polls_nobody(rt: HostRuntime) {
    polls(&rt, &mut with_cards(None, None), 128, &RoundEnd::Empty);
}

#[test]
fn polls_cards_of_both_types(rt: HostRuntime) {
    let card = card_a(&rt, b"\x01\x02\x03\x04");
    let mut medium = with_cards(Some(card), Some(card_b(true)));
    polls(&rt, &mut medium, 192, &RoundEnd::Collision);
}

/// A medium that hears nothing until a card of Type B is there, and fails from a call on.
#[derive(Drop)]
struct Late {
    calls: u32,
    fails: u32,
    silent: u32,
    card: BCard,
    faults: u64,
}

impl Medium for Late {
    ghost use Rattle.std.specs.Prelude.{ℕ};
    ghost use Rattle.ep_base.specs.Air.Medium.{untold};

    ghost State = { Unit {0} };

    ghost state = { λ _. tt };

    ghost steps = { untold };

    ghost faults = { λ m. m.faults };

    fn reset(&mut self) -> Result<(), RfFailed> {
        self.card.reset();
        Ok(())
    }

    fn send(&mut self, wave: Wave, frame: &FrameBuf, _wait: u32) -> Result<Heard, RfFailed> {
        self.calls = self.calls.saturating_add(1);
        if self.calls >= self.fails {
            self.faults = self.faults.saturating_add(1);
            return Err(RfFailed);
        }
        if self.calls <= self.silent {
            return Ok(Heard::Silence);
        }
        Ok(heard(self.card.hear(wave, frame)))
    }
}

/// Such a medium, silent for so many frames, and failing from this one on.
fn comes_late(silent: u32, fails: u32) -> Late {
    Late {
        calls: 0,
        fails,
        silent,
        card: card_b(true),
        faults: 0,
    }
}

#[test]
fn polls_until_a_card(rt: HostRuntime) {
    let mut rounds = Rounds::new();
    let Ok(card) = poll(&mut comes_late(4, 100), 8, &mut rounds) else {
        panic!(rt; "no card");
    };
    is_found(&rt, &card, CardKind::B, b"\x11\x22\x33\x44");
    let ends = [RoundEnd::Empty, RoundEnd::Empty, RoundEnd::Card(card)];
    assert!(rt; rounds.as_slice() == ends.as_slice());
}

#[test]
fn polls_until_a_fault(rt: HostRuntime) {
    let mut medium = comes_late(100, 6);
    let mut rounds = Rounds::new();
    assert!(rt; poll(&mut medium, 8, &mut rounds) == Err(PollEnd::Device));
    assert!(rt; rounds.len() == 2);
    assert!(rt; medium.faults == 1);
}

/// One exchange that begins with or without a reset, has this frame, and doesn't end the round.
fn sends(rt: &impl Abort, poll: &mut Poll, medium: &mut Cards, reset: bool, wanted: &[u8])
    requires { IsSome poll.old.stage }
    ensures { IsSome poll.new.stage }
{
    let ask = poll.ask();
    assert!(rt; (ask.reset, ask.wait, ask.frame.as_slice()) == (reset, 0, wanted));
    let Ok(heard) = medium.send(ask.wave, &ask.frame, 0) else {
        panic!(rt; "no exchange");
    };
    let None = poll.heard(&heard) else {
        panic!(rt; "the round ended");
    };
}

#[test]
fn frames_as_sent(rt: HostRuntime) {
    let mut medium = with_cards(Some(card_a(&rt, b"\x01\x02\x03\x04")), None);
    let mut poll = Poll::open(8);
    sends(&rt, &mut poll, &mut medium, true, b"\x52");
    sends(&rt, &mut poll, &mut medium, false, b"\x50\x00\x57\xcd");
    sends(&rt, &mut poll, &mut medium, false, b"\x05\x00\x08\x39\x73");
    sends(&rt, &mut poll, &mut medium, false, b"\x52");
    sends(&rt, &mut poll, &mut medium, false, b"\x93\x20");
    let select = b"\x93\x70\x01\x02\x03\x04\x04\x8e\x25";
    sends(&rt, &mut poll, &mut medium, false, select);
    let rats = poll.ask();
    assert!(rt; rats.frame.as_slice() == b"\xe0\x80\x31\x73".as_slice());
}
