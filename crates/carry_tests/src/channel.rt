//! The perfect channel, and commands over a medium.
ghost use Rattle.std.specs.Prelude.{◌≡◌, true};

use crate::cards::{card, command};
use crate::driving::{answered, carried, failed, lost, presented};
use apdu::Command;
use block_reader::ReaderEnd;
use card_image::{CardImage, CardLog};
use ep_base::{FrameBuf, Wave};
use link::{Breach, Direct, LinkEnd, Phase, Presented, Transport};
use rf_frame::{Heard, Medium, RfFailed, copy_frame, sent_message};
use std::process::Abort;

// Presents the card of a perfect channel.
fn present(rt: &impl Abort, direct: &mut Direct)
    ensures { Direct.presented direct.new ≡ true }
{
    let wanted = Presented {
        card: card(256),
        collision: false,
    };
    assert!(rt; presented(rt, direct) == wanted);
}

// A command that is answered so.
fn answers(rt: &impl Abort, direct: &mut Direct, bytes: &[u8], wanted: &[u8]) {
    present(rt, direct);
    let response = answered(rt, direct, &command(rt, bytes));
    assert!(rt; response.bytes() == wanted);
    assert!(rt; direct.close().is_ok());
}

#[test]
fn a_card_answers_until_the_log_is_full(rt: HostRuntime) {
    let log = CardLog::open(rt.alloc(), 2).ok().expect(&rt, "memory");
    let image = CardImage::open(rt.alloc(), 1, Vec::new(rt.alloc()), Vec::new(rt.alloc()))
        .ok()
        .expect(&rt, "memory");
    let mut direct = Direct::open(card(256), image, log);
    let ppse = Command::select(b"2PAY.SYS.DDF01");
    answers(&rt, &mut direct, b"\x00\xb2\x01\x0c", b"\x69\x85");
    answers(&rt, &mut direct, ppse.bytes(), b"\x6a\x82");
    present(&rt, &mut direct);
    assert!(rt; lost(&rt, &mut direct, &ppse) == LinkEnd::Device);
    assert!(rt;
        (
            direct.log().records().len(),
            direct.log().spare(),
            direct.number()
        ) == (2, 0, 1)
    );
}

/// A medium that tells nothing of itself: it hears nothing, then a response, then a response with another number, and
/// then it fails.
#[derive(Drop)]
struct Untold {
    calls: u32,
    sent: FrameBuf,
    faults: u64,
}

impl Medium for Untold {
    ghost use Rattle.std.specs.Prelude.{ℕ};
    ghost use Rattle.ep_base.specs.Air.Medium.{untold};

    ghost State = { Unit {0} };

    ghost state = { λ _. tt };

    ghost steps = { untold };

    ghost faults = { λ m. m.faults };

    fn reset(&mut self) -> Result<(), RfFailed> {
        Ok(())
    }

    fn send(&mut self, wave: Wave, frame: &FrameBuf, _wait: u32) -> Result<Heard, RfFailed> {
        self.calls = self.calls.saturating_add(1);
        self.sent = copy_frame(frame);
        match self.calls {
            1 => Ok(Heard::Silence),
            2 | 3 => Ok(Heard::Frame {
                wave,
                bytes: sent_message(wave, b"\x02\x6a\x82").frame,
            }),
            _ => {
                self.faults = self.faults.saturating_add(1);
                Err(RfFailed)
            }
        }
    }
}

#[test]
fn commands_over_a_medium(rt: HostRuntime) {
    let mut medium = Untold {
        calls: 0,
        sent: FrameBuf::new(),
        faults: 0,
    };
    let ppse = Command::select(b"2PAY.SYS.DDF01");
    let mut first = ReaderEnd::open(&card(256), 8);
    let response = carried(&rt, &mut first, &mut medium, &ppse);
    assert!(rt; response.bytes() == b"\x6a\x82".as_slice());
    assert!(rt; medium.sent.as_slice() == b"\xb2\x67\xc7".as_slice());
    let breach = Breach {
        frame: sent_message(Wave::A, b"\x02\x6a\x82").frame,
        number: 1,
        phase: Phase::Sending,
        wtx: 0,
    };
    assert!(rt; failed(&rt, &mut first, &mut medium, &ppse) == LinkEnd::Breach(breach));
    let mut second = ReaderEnd::open(&card(256), 8);
    assert!(rt; failed(&rt, &mut second, &mut medium, &ppse) == LinkEnd::Device);
    assert!(rt; medium.faults == 1);
}
