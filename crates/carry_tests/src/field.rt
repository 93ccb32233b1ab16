//! A reader at a field, by hand: the longest command in the smallest frames, with lost frames.
ghost use Rattle.std.specs.Prelude.{◌≡◌, true, All, IfOk};
ghost use Rattle.ep_base.specs.Cards.CardAnswer.{IsApp};
ghost use Rattle.ep_base.specs.Cards.Lawful.{Lawful};
ghost use Rattle.rf_field.specs.Fields.{field_of};
ghost use Rattle.rf_field.specs.Meaning.{IsRun};
ghost use Rattle.link_tests.specs.OneCommand.{IsUsable};
ghost use Rattle.link_tests.specs.Reader.{at, is_presented};

use crate::cards::{SELECT_APP, app, command, fates, longest_command, longest_response};
use crate::driving::{answered, presented};
use apdu::{Command, Response};
use arrayvec::ArrayVec;
use card_image::{App, CardImage};
use ep_base::{FrameBuf, Wave};
use link::{LinkEnd, Presented, RfTransport};
use link_tests::FieldReader;
use rf_field::{BPlan, CardPlan, FateRun, Field};
use rf_frame::{Heard, Medium, RfFailed, copy_frame};
use std::alloc::{AllocError, Global};
use std::process::Abort;

// After four exchanges that pass: twenty whose answer is lost, each before one that passes, and then the fates of a
// chained response.
const MANY_LOSSES: &[u8] = b"4a1a1a1a1a1a1a1a1a1a1a1a1a1a1a1a1a1a1a1a11fa";

/// A field that keeps what was sent and how long the frames were that were heard, and tells nothing of itself.
#[derive(Drop)]
struct Listener {
    field: Field,
    sent: ArrayVec<FrameBuf, 64>,
    heard: ArrayVec<usize, 64>,
}

// How long the frame is that was heard, and 0 where none was.
fn length_of(heard: &Heard) -> usize {
    match heard {
        Heard::Frame { bytes, .. } => bytes.len(),
        _ => 0,
    }
}

impl Medium for Listener {
    ghost use Rattle.ep_base.specs.Air.Medium.{untold};

    ghost State = { Unit {0} };

    ghost state = { λ _. tt };

    ghost steps = { untold };

    ghost faults = { λ _. 0 };

    fn reset(&mut self) -> Result<(), RfFailed> {
        self.field.reset()
    }

    fn send(&mut self, wave: Wave, frame: &FrameBuf, wait: u32) -> Result<Heard, RfFailed> {
        let heard = self.field.send(wave, frame, wait)?;
        let _ = self.sent.try_push(copy_frame(frame));
        let _ = self.heard.try_push(length_of(&heard));
        Ok(heard)
    }
}

// A field with one card of Type B that takes frames of 16 bytes and has this application.
fn smallest_frames(alloc: Global, app: App, fates: Vec<FateRun>) -> Result<Field, AllocError>
    requires app { IsApp app }
    requires runs { All IsRun fates.items }
    ensures { IfOk result (λ f. Lawful (field_of f)) }
{
    let plan = BPlan {
        pupi: [0x11, 0x22, 0x33, 0x44],
        app_data: [0; 4],
        fsci: 0,
        fwi: 4,
        iso4: true,
    };
    let mut apps = Vec::new(alloc);
    apps.push(app)?;
    let image = CardImage::open(alloc, 1, Vec::new(alloc), apps).map_err(|_| AllocError)?;
    let _number = image.number();
    let mut cards = Vec::new(alloc);
    cards.push(CardPlan::B(plan, image))?;
    let Ok(field) = Field::open(alloc, cards, Vec::new(alloc), fates, 4) else {
        return Err(AllocError);
    };
    Ok(field)
}

// Such a field, whose card answers each command with CLA 80h so once its application was selected, under the fates of
// these letters.
fn field(rt: &(impl Abort + AllocGlobal), response: &[u8], lost: &[u8]) -> Field
    ensures { Lawful (field_of result) }
{
    let field = smallest_frames(rt.alloc(), app(rt, response, 0), fates(rt, lost));
    field.ok().expect(rt, "memory")
}

// How many frames after the first four begin with one of two PCBs.
fn count_of(listener: &Listener, pcbs: [u8; 2]) -> usize {
    listener
        .sent
        .iter()
        .skip(4)
        .filter(|frame| frame.first().is_some_and(|pcb| pcbs.contains(pcb)))
        .count()
}

// Compares the frames that were sent and heard after the first four.
fn listened(rt: &impl Abort, listener: &Listener) {
    assert!(rt; listener.sent.len() == 4 + 44);
    // The command: 20 blocks of 13 bytes and one of 1, each of the 20 acknowledged after an R(NAK).
    assert!(rt; count_of(listener, [0x12, 0x13]) == 20);
    assert!(rt; count_of(listener, [0x02, 0x03]) == 1);
    assert!(rt; count_of(listener, [0xb2, 0xb3]) == 20);
    assert!(rt; listener.sent.get(42).map(|frame| frame.len()) == Some(1 + 13 + 2));
    assert!(rt; listener.sent.get(44).map(|frame| frame.len()) == Some(1 + 1 + 2));
    // The response: a part of 253 bytes, a lost R(ACK), a lost part, and the part of 5 bytes once more.
    assert!(rt; count_of(listener, [0xa2, 0xa3]) == 3);
    let parts = [1 + 253 + 2, 0, 0, 1 + 5 + 2];
    for (part, length) in listener.heard.iter().skip(44).zip(parts.iter()) {
        assert!(rt; part == length);
    }
}

#[test]
fn the_longest_command_over_the_radio(rt: HostRuntime) {
    let response = longest_response();
    let listener = Listener {
        field: field(&rt, &response, MANY_LOSSES),
        sent: ArrayVec::new(),
        heard: ArrayVec::new(),
    };
    let mut radio = RfTransport::open(listener, 8);
    presented(&rt, &mut radio);
    answered(&rt, &mut radio, &command(&rt, SELECT_APP));
    let answer = answered(&rt, &mut radio, &longest_command(&rt));
    assert!(rt; answer.bytes() == response.as_slice());
    listened(&rt, radio.medium());
    assert!(rt; radio.medium().field.log().records().len() == 2);
}

// A reader at a field with one card, of which these frames are lost.
fn reader(rt: &(impl Abort + AllocGlobal), response: &[u8], lost: &[u8]) -> FieldReader
    ensures { IsUsable (at result) }
{
    FieldReader::open(field(rt, response, lost), 8)
}

// The card that comes.
fn found(rt: &impl Abort, reader: &mut FieldReader) -> Presented
    requires { IsUsable (at reader.old) }
    ensures usable { IsUsable (at reader.new) }
    ensures presented { is_presented reader.new ≡ true }
{
    let Ok(presented) = reader.present() else {
        panic!(rt; "no card");
    };
    presented
}

// The response to a command, for which the log has room.
fn responds(rt: &impl Abort, reader: &mut FieldReader, command: &Command) -> Response
    requires usable { IsUsable (at reader.old) }
    requires presented { is_presented reader.old ≡ true }
    ensures usable { IsUsable (at reader.new) }
    ensures presented { is_presented reader.new ≡ true }
{
    assert!(rt; reader.log().spare() >= 2);
    let Ok(response) = reader.transact(command) else {
        panic!(rt; "no response");
    };
    response
}

// Compares how many exchanges were made, and how many commands were executed.
fn counts(rt: &impl Abort, reader: &FieldReader, exchanges: u64, executed: usize) {
    assert!(rt;
        (reader.field().exchanges(), reader.log().records().len()) == (exchanges, executed)
    );
}

#[test]
fn one_command_at_a_field(rt: HostRuntime) {
    let response = longest_response();
    let mut reader = reader(&rt, &response, MANY_LOSSES);
    let presented = found(&rt, &mut reader);
    assert!(rt; (presented.card.fsc, presented.collision) == (16, false));
    responds(&rt, &mut reader, &command(&rt, SELECT_APP));
    counts(&rt, &reader, 4, 1);
    let answer = responds(&rt, &mut reader, &longest_command(&rt));
    assert!(rt; answer.bytes() == response.as_slice());
    counts(&rt, &reader, 48, 2);
    assert!(rt; reader.close().is_ok());
    counts(&rt, &reader, 49, 2);
}

#[test]
fn a_spent_link_at_a_field(rt: HostRuntime) {
    let mut reader = reader(&rt, b"\x90\x00", b"3aaa");
    found(&rt, &mut reader);
    assert!(rt; reader.log().spare() >= 2);
    let Err(failed) = reader.transact(&command(&rt, SELECT_APP)) else {
        panic!(rt; "a response");
    };
    assert!(rt; failed == LinkEnd::Spent { bad: 3 });
    counts(&rt, &reader, 6, 1);
}
