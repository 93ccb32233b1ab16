use ep_base::MESSAGE;
use rf_frame::{
    Activated, Ask, Buf, Burst, CardHear, CardKind, FrameBuf, Heard, Medium, RfFailed, RoundEnd,
    Wave, answer_in, ask_message, burst_seen, check, copy_frame, exchange, flip, good, open_frame,
    seal, sent_message,
};
use std::test::Fail;

fn framed(bytes: &[u8]) -> Result<FrameBuf, Fail> {
    let mut frame = FrameBuf::new();
    frame.try_extend_from_slice(bytes)?;
    Ok(frame)
}

/// A wave, a message, and its check as it is sent.
type Row = (Wave, &'static [u8], [u8; 2]);

/// A message of each kind that a reader and its cards send, with its check as a reader computes it.
const ROWS: [Row; 18] = [
    (Wave::A, b"\x00\x00", [0xa0, 0x1e]),
    (Wave::A, b"\x12\x34", [0x26, 0xcf]),
    (Wave::A, b"\x50\x00", [0x57, 0xcd]),
    (Wave::A, b"\x93\x70\x01\x02\x03\x04\x04", [0x8e, 0x25]),
    (Wave::A, b"\x20", [0xfc, 0x70]),
    (Wave::A, b"\xe0\x80", [0x31, 0x73]),
    (Wave::A, b"\x03\x28\x40", [0x87, 0xe5]),
    (
        Wave::A,
        b"\x02\x00\xa4\x04\x00\x0e2PAY.SYS.DDF01\x00",
        [0xe0, 0x42],
    ),
    (Wave::A, b"\x02\x6a\x82", [0x93, 0x2f]),
    (Wave::A, b"\xb2", [0x67, 0xc7]),
    (Wave::A, b"\xc2", [0xe0, 0xb4]),
    (Wave::B, b"\x00\x00\x00", [0xcc, 0xc6]),
    (Wave::B, b"\x0f\xaa\xff", [0xfc, 0xd1]),
    (Wave::B, b"\x0a\x12\x34\x56", [0x2c, 0xf6]),
    (Wave::B, b"\x05\x00\x08", [0x39, 0x73]),
    (
        Wave::B,
        b"\x50\x11\x22\x33\x44\x00\x00\x00\x00\x00\x81\x40",
        [0xdc, 0x88],
    ),
    (
        Wave::B,
        b"\x1d\x11\x22\x33\x44\x00\x08\x01\x00",
        [0xdb, 0x35],
    ),
    (Wave::B, b"\x00", [0x78, 0xf0]),
];

#[test]
fn checks_as_sent(rt: HostRuntime) -> Result<(), Fail> {
    for (wave, message, sum) in &ROWS {
        assert!(rt;
            check(*wave, message) == u16::from_le_bytes(*sum),
            "the check of {message:?}"
        );
        let mut frame = framed(message)?;
        assert!(rt; frame.len() <= MESSAGE);
        seal(*wave, &mut frame);
        let mut sent = framed(message)?;
        sent.try_extend_from_slice(sum)?;
        assert!(rt; frame == sent, "the frame of {message:?}");
        assert!(rt; good(*wave, frame.as_slice()));
        let opened = open_frame(*wave, &frame).ok_or("not opened")?;
        assert!(rt; opened == *message);
    }
    Ok(())
}

/// A frame's wave and bytes, the start of a burst of sixteen bits, the bytes after it, and whether a bit was inverted.
type Damage = (Wave, &'static [u8], u32, &'static [u8], bool);

const DAMAGES: [Damage; 6] = [
    (Wave::A, b"\x50\x00\x57\xcd", 16, b"\x50\x00\xa8\x32", true),
    (Wave::A, b"\x50\x00\x57\xcd", 31, b"\x50\x00\x57\x4d", true),
    (Wave::A, b"\x50\x00\x57\xcd", 32, b"\x50\x00\x57\xcd", false),
    (Wave::AShort, b"\x52", 4, b"\x22", true),
    (Wave::AShort, b"\x52", 7, b"\x52", false),
    (Wave::ABare, b"\x04\x00", 6, b"\xc4\xff", true),
];

#[test]
fn bursts(rt: HostRuntime) -> Result<(), Fail> {
    for (wave, before, start, after, inverted) in &DAMAGES {
        let burst = Burst {
            start: *start,
            mask: 0xffff,
        };
        let mut frame = framed(before)?;
        assert!(rt; flip(*wave, &mut frame, burst) == *inverted, "at {start}");
        assert!(rt; frame.as_slice() == *after, "at {start}");
    }
    let sent = framed(b"\x50\x00\x57\xcd")?;
    assert!(rt; good(Wave::A, sent.as_slice()));
    assert!(rt; burst_seen(Wave::A, &sent, Burst { start: 31, mask: 1 }));
    assert!(rt; !burst_seen(Wave::A, &sent, Burst { start: 31, mask: 2 }));
    assert!(rt; !good(Wave::A, b"\x50\x00\xa8\x32"));
    assert!(rt; !good(Wave::A, b"\x50\x00\x57\x4d"));
    Ok(())
}

/// A medium that answers from a list, and with silence after its end, and fails at the listed calls, counted from 1.
#[derive(Drop)]
struct ListMedium {
    answers: Vec<Heard>,
    at: usize,
    fails: Vec<u32>,
    calls: u32,
    faults: u64,
}

impl Medium for ListMedium {
    ghost use Rattle.ep_base.specs.Air.Medium.{told};
    ghost use Rattle.frame_tests.specs.Listed.{Listed, listed};

    ghost State = { Listed };

    ghost state = { λ m. record { answers = m.answers.items; at = m.at; fails = m.fails.items; calls = m.calls } };

    ghost steps = { told listed };

    ghost faults = { λ m. m.faults };

    fn reset(&mut self) -> Result<(), RfFailed> {
        self.calls = self.calls.saturating_add(1);
        if self.fails.contains(&self.calls) {
            self.faults = self.faults.saturating_add(1);
            return Err(RfFailed);
        }
        Ok(())
    }

    fn send(&mut self, _wave: Wave, _frame: &FrameBuf, _wait: u32) -> Result<Heard, RfFailed> {
        self.calls = self.calls.saturating_add(1);
        if self.fails.contains(&self.calls) {
            self.faults = self.faults.saturating_add(1);
            return Err(RfFailed);
        }
        let heard = match self.answers.get(self.at) {
            Some(heard) => heard.copy(),
            None => Heard::Silence,
        };
        self.at = self.at.saturating_add(1);
        Ok(heard)
    }
}

/// A medium that tells nothing of itself.
#[derive(Drop)]
struct Untold;

impl Medium for Untold {
    ghost use Rattle.std.specs.Prelude.{ℕ};
    ghost use Rattle.ep_base.specs.Air.Medium.{untold};

    ghost State = { Unit {0} };

    ghost state = { λ _. tt };

    ghost steps = { untold };

    ghost faults = { λ _. 0 };

    fn reset(&mut self) -> Result<(), RfFailed> {
        Ok(())
    }

    fn send(&mut self, wave: Wave, frame: &FrameBuf, _wait: u32) -> Result<Heard, RfFailed> {
        Ok(Heard::Frame {
            wave,
            bytes: copy_frame(frame),
        })
    }
}

fn heard(wave: Wave, message: &[u8]) -> Result<Heard, Fail> {
    let mut bytes = framed(message)?;
    if bytes.len() <= MESSAGE {
        seal(wave, &mut bytes);
    }
    Ok(Heard::Frame { wave, bytes })
}

#[test]
fn a_medium_by_its_steps(rt: HostRuntime) -> Result<(), Fail> {
    let mut answers = Vec::new(rt.alloc());
    answers.push(heard(Wave::ABare, b"\x04\x00")?)?;
    answers.push(heard(Wave::A, b"\x20")?)?;
    answers.push(Heard::Overlap)?;
    let mut fails = Vec::new(rt.alloc());
    fails.extend_from_slice(&[3, 5])?;
    let mut medium = ListMedium {
        answers,
        at: 0,
        fails,
        calls: 0,
        faults: 0,
    };
    let wake = Ask {
        reset: true,
        wave: Wave::AShort,
        frame: framed(b"\x52")?,
        wait: 0,
    };
    let select = ask_message(Wave::A, b"\x93\x70\x01\x02\x03\x04\x04");
    assert!(rt; exchange(&mut medium, &wake) == Ok(heard(Wave::ABare, b"\x04\x00")?));
    assert!(rt; exchange(&mut medium, &select) == Err(RfFailed));
    assert!(rt; exchange(&mut medium, &select.copy()) == Ok(heard(Wave::A, b"\x20")?));
    assert!(rt; exchange(&mut medium, &wake) == Err(RfFailed));
    assert!(rt; exchange(&mut medium, &select) == Ok(Heard::Overlap));
    assert!(rt; exchange(&mut medium, &select) == Ok(Heard::Silence));
    assert!(rt; medium.faults == 2);
    assert!(rt;
        exchange(&mut Untold, &select) == Ok(heard(Wave::A, b"\x93\x70\x01\x02\x03\x04\x04")?)
    );
    Ok(())
}

#[test]
fn answers_and_copies(rt: HostRuntime) -> Result<(), Fail> {
    let sak = heard(Wave::A, b"\x20")?;
    assert!(rt; !sak.is_silent());
    assert!(rt; Heard::default().is_silent());
    assert!(rt; RoundEnd::default() == RoundEnd::Empty);
    assert!(rt; answer_in(Wave::A, &sak) == Ok(b"\x20".as_slice()));
    assert!(rt; answer_in(Wave::B, &sak) == Err(RoundEnd::Broken));
    assert!(rt; answer_in(Wave::A, &Heard::Overlap) == Err(RoundEnd::Collision));
    let mut id = Buf::<10>::new();
    id.try_extend_from_slice(b"\x01\x02\x03\x04")?;
    let card = Activated {
        kind: CardKind::A,
        id,
        fsc: 256,
        fwi: 4,
    };
    assert!(rt; card.copy() == card);
    let end = RoundEnd::Card(card);
    assert!(rt; end.copy() == end);
    let opened = CardHear::Opened {
        answer: sent_message(Wave::A, b"\x03\x28\x40"),
        fsd: 256,
    };
    assert!(rt; opened.copy() == opened);
    Ok(())
}
