//! The transport over a medium through the trait's bound, with the frames of a card of Type A.
use crate::cards::card;
use crate::driving::{answered, lost, presented};
use apdu::Command;
use ep_base::{FrameBuf, Wave};
use link::{LinkEnd, PresentEnd, Presented, RfTransport, Transport};
use rf_frame::{Heard, Medium, RfFailed, copy_frame};

/// A medium that answers by letters, and with silence after their end, and fails at one call, counted from 1.
#[derive(Drop)]
struct Scripted {
    answers: &'static [u8],
    calls: usize,
    fails: usize,
    sent: FrameBuf,
    faults: u64,
}

/// What is heard at a letter: ATQA at q, the identifier of a level at l, SAK at s, ATS at t, a response without an
/// application at n, and silence at any other.
fn heard(letter: u8) -> Heard {
    let (wave, sent): (Wave, &[u8]) = match letter {
        b'q' => (Wave::ABare, b"\x04\x00"),
        b'l' => (Wave::ABare, b"\x01\x02\x03\x04\x04"),
        b's' => (Wave::A, b"\x20\xfc\x70"),
        b't' => (Wave::A, b"\x03\x28\x40\x87\xe5"),
        b'n' => (Wave::A, b"\x02\x6a\x82\x93\x2f"),
        _ => return Heard::Silence,
    };
    let mut bytes = FrameBuf::new();
    if bytes.try_extend_from_slice(sent).is_err() {
        return Heard::Silence;
    }
    Heard::Frame { wave, bytes }
}

impl Medium for Scripted {
    ghost use Rattle.std.specs.Prelude.{ℕ};
    ghost use Rattle.ep_base.specs.Air.Medium.{untold};

    ghost State = { Unit {0} };

    ghost state = { λ _. tt };

    ghost steps = { untold };

    ghost faults = { λ m. m.faults };

    fn reset(&mut self) -> Result<(), RfFailed> {
        Ok(())
    }

    fn send(&mut self, _wave: Wave, frame: &FrameBuf, _wait: u32) -> Result<Heard, RfFailed> {
        let place = self.calls;
        self.calls = place.saturating_add(1);
        self.sent = copy_frame(frame);
        if self.calls == self.fails {
            self.faults = self.faults.saturating_add(1);
            return Err(RfFailed);
        }
        match self.answers.get(place) {
            Some(letter) => Ok(heard(*letter)),
            None => Ok(Heard::Silence),
        }
    }
}

/// A transport over a medium that answers so.
fn radio(answers: &'static [u8], fails: usize) -> RfTransport<Scripted> {
    let medium = Scripted {
        answers,
        calls: 0,
        fails,
        sent: FrameBuf::new(),
        faults: 0,
    };
    RfTransport::open(medium, 8)
}

#[test]
fn a_command_and_a_closing(rt: HostRuntime) {
    let mut radio = radio(b"q--qlstn", 0);
    let wanted = Presented {
        card: card(256),
        collision: false,
    };
    assert!(rt; presented(&rt, &mut radio) == wanted);
    let response = answered(&rt, &mut radio, &Command::select(b"2PAY.SYS.DDF01"));
    assert!(rt; response.bytes() == b"\x6a\x82".as_slice());
    assert!(rt; radio.close().is_ok());
    assert!(rt; radio.medium().calls == 9);
    assert!(rt; radio.medium().sent.as_slice() == b"\xc2\xe0\xb4".as_slice());
}

#[test]
fn a_collision_a_spent_link_and_a_fresh_one(rt: HostRuntime) {
    let mut radio = radio(b"q-qq--qlst---q--qlstn", 22);
    let ppse = Command::select(b"2PAY.SYS.DDF01");
    let wanted = Presented {
        card: card(256),
        collision: true,
    };
    assert!(rt; presented(&rt, &mut radio) == wanted);
    assert!(rt; lost(&rt, &mut radio, &ppse) == LinkEnd::Spent { bad: 3 });
    assert!(rt; !presented(&rt, &mut radio).collision);
    let response = answered(&rt, &mut radio, &ppse);
    assert!(rt; response.bytes() == b"\x6a\x82".as_slice());
    assert!(rt; radio.close() == Err(RfFailed));
}

#[test]
fn no_card_and_a_device_that_fails(rt: HostRuntime) {
    let mut radio = radio(b"", 130);
    let none = PresentEnd::NoCard { collision: false };
    assert!(rt; radio.present() == Err(none));
    assert!(rt; radio.medium().calls == 128);
    assert!(rt; radio.present() == Err(PresentEnd::Device));
    assert!(rt; radio.medium().calls == 130);
}
