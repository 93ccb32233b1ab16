//! Whole links with lost frames, by hand.
ghost use Rattle.std.specs.Prelude.{◌≡◌, ◌≤◌, true};
ghost use Rattle.block_reader.specs.Stands.{held, is_resting};

use crate::cards::{
    SELECT_APP, app, card, command, fates, longest_command, longest_response, one_response,
};
use crate::driving::{carried, failed};
use apdu::Command;
use arrayvec::ArrayVec;
use block_reader::ReaderEnd;
use card_image::CardImage;
use ep_base::{CardKind, FRAME, FrameBuf, Wave};
use link::LinkEnd;
use link_tests::OpenLink;
use rf_field::Wire;
use rf_frame::{Heard, Medium, RfFailed, copy_frame};
use std::process::Abort;

const PPSE_ANSWER: &[u8] =
    b"\x6f\x23\x84\x0e2PAY.SYS.DDF01\xa5\x11\xbf\x0c\x0e\x61\x0c\x4f\x07\xa0\x00\x00\x00\x03\x10\x10\x87\x01\x01\x90\x00";

// The I-block with SELECT PPSE, and R(NAK) 0, with their check bytes.
const FIRST_BLOCK: &[u8] = b"\x02\x00\xa4\x04\x00\x0e2PAY.SYS.DDF01\x00\xe0\x42";

const NAK: &[u8] = b"\xb2\x67\xc7";

// After one exchange that passes: twenty whose answer is lost, each before one that passes, and then the fates of a
// chained response.
const MANY_LOSSES: &[u8] = b"1a1a1a1a1a1a1a1a1a1a1a1a1a1a1a1a1a1a1a1a11fa";

/// A wire that keeps what was sent, and tells nothing of itself.
#[derive(Drop)]
struct Recorder {
    wire: Wire,
    frames: ArrayVec<FrameBuf, 64>,
    waits: ArrayVec<u32, 64>,
}

impl Medium for Recorder {
    ghost use Rattle.ep_base.specs.Air.Medium.{untold};

    ghost State = { Unit {0} };

    ghost state = { λ _. tt };

    ghost steps = { untold };

    ghost faults = { λ _. 0 };

    fn reset(&mut self) -> Result<(), RfFailed> {
        self.wire.reset()
    }

    fn send(&mut self, wave: Wave, frame: &FrameBuf, wait: u32) -> Result<Heard, RfFailed> {
        let _ = self.frames.try_push(copy_frame(frame));
        let _ = self.waits.try_push(wait);
        self.wire.send(wave, frame, wait)
    }
}

// An image whose directory has one application, which isn't on the card.
fn directory_image(rt: &(impl Abort + AllocGlobal)) -> CardImage {
    let ppse = one_response(rt, PPSE_ANSWER);
    CardImage::open(rt.alloc(), 1, ppse, Vec::new(rt.alloc()))
        .ok()
        .expect(rt, "memory")
}

// An image with an application that answers so.
fn app_image(rt: &(impl Abort + AllocGlobal), response: &[u8], wtx: u8) -> CardImage
    requires { wtx ≤ 8 }
{
    let mut apps = Vec::new(rt.alloc());
    apps.push(app(rt, response, wtx)).ok().expect(rt, "memory");
    CardImage::open(rt.alloc(), 1, Vec::new(rt.alloc()), apps)
        .ok()
        .expect(rt, "memory")
}

// A new wire to the card of this image, under the fates of these letters.
fn recorded(rt: &(impl Abort + AllocGlobal), image: CardImage, lost: &[u8]) -> Recorder {
    let wire = Wire::open(rt.alloc(), CardKind::A, 256, image, fates(rt, lost), 4)
        .ok()
        .expect(rt, "memory");
    Recorder {
        wire,
        frames: ArrayVec::new(),
        waits: ArrayVec::new(),
    }
}

// Compares the frames that were sent: the block of SELECT PPSE at I, R(NAK) at N.
fn sends(rt: &impl Abort, medium: &Recorder, letters: &[u8]) {
    assert!(rt; medium.frames.len() == letters.len());
    for (frame, letter) in medium.frames.iter().zip(letters) {
        let wanted = if *letter == b'I' { FIRST_BLOCK } else { NAK };
        assert!(rt; frame.as_slice() == wanted);
    }
}

// Carries SELECT PPSE over a new link, which answers it, and compares the frames that were sent.
fn answers(rt: &(impl Abort + AllocGlobal), lost: &[u8], letters: &[u8]) {
    let mut medium = recorded(rt, directory_image(rt), lost);
    let mut end = ReaderEnd::open(&card(256), 8);
    let ppse = Command::select(b"2PAY.SYS.DDF01");
    let response = carried(rt, &mut end, &mut medium, &ppse);
    assert!(rt; response.bytes() == PPSE_ANSWER);
    sends(rt, &medium, letters);
    assert!(rt; medium.wire.log().records().len() == 1);
}

// The same over a link that is spent, and how often the command was executed.
fn spends(rt: &(impl Abort + AllocGlobal), lost: &[u8], letters: &[u8], executed: usize) {
    let mut medium = recorded(rt, directory_image(rt), lost);
    let mut end = ReaderEnd::open(&card(256), 8);
    let ppse = Command::select(b"2PAY.SYS.DDF01");
    let spent = failed(rt, &mut end, &mut medium, &ppse);
    assert!(rt; spent == LinkEnd::Spent { bad: 3 });
    sends(rt, &medium, letters);
    assert!(rt; medium.wire.log().records().len() == executed);
}

#[test]
fn what_is_lost_is_sent_again(rt: HostRuntime) {
    answers(&rt, b"a", b"IN");
    answers(&rt, b"f", b"INI");
}

#[test]
fn three_losses_spend_the_link(rt: HostRuntime) {
    spends(&rt, b"aaa", b"INN", 1);
    spends(&rt, b"fff", b"INN", 0);
}

// A link to a card with frames of this size, whose application was selected.
fn selected(
    rt: &(impl Abort + AllocGlobal),
    fsc: u16,
    image: CardImage,
    lost: &[u8],
) -> (ReaderEnd, Recorder)
    requires size { (16 ≤ fsc) × (fsc ≤ FRAME) }
    ensures rests { is_resting (held result.0) ≡ true }
{
    let mut medium = recorded(rt, image, lost);
    let mut end = ReaderEnd::open(&card(fsc), 8);
    let response = carried(rt, &mut end, &mut medium, &command(rt, SELECT_APP));
    assert!(rt; response.bytes() == b"\x90\x00".as_slice());
    medium.frames.clear();
    medium.waits.clear();
    (end, medium)
}

// How many of the frames that were sent begin with one of two PCBs.
fn count_of(medium: &Recorder, pcbs: [u8; 2]) -> usize {
    medium
        .frames
        .iter()
        .filter(|frame| frame.first().is_some_and(|pcb| pcbs.contains(pcb)))
        .count()
}

#[test]
fn the_longest_command_in_the_smallest_frames(rt: HostRuntime) {
    let response = longest_response();
    let image = app_image(&rt, &response, 0);
    let (mut end, mut medium) = selected(&rt, 16, image, MANY_LOSSES);
    let answer = carried(&rt, &mut end, &mut medium, &longest_command(&rt));
    assert!(rt; answer.bytes() == response.as_slice());
    assert!(rt; medium.frames.len() == 44);
    assert!(rt; count_of(&medium, [0x12, 0x13]) == 20);
    assert!(rt; count_of(&medium, [0x02, 0x03]) == 1);
    assert!(rt; count_of(&medium, [0xb2, 0xb3]) == 20);
    assert!(rt; count_of(&medium, [0xa2, 0xa3]) == 3);
    assert!(rt; medium.wire.log().records().len() == 2);
}

// Compares the PCBs of the frames that were sent.
fn begin(rt: &impl Abort, medium: &Recorder, pcbs: &[u8]) {
    assert!(rt; medium.frames.len() == pcbs.len());
    for (frame, pcb) in medium.frames.iter().zip(pcbs) {
        assert!(rt; frame.first() == Some(pcb));
    }
}

// Compares the waiting numbers of the frames that were sent.
fn wait(rt: &impl Abort, medium: &Recorder, numbers: &[u8]) {
    assert!(rt; medium.waits.len() == numbers.len());
    for (wait, number) in medium.waits.iter().zip(numbers) {
        assert!(rt; *wait == u32::from(*number));
    }
}

#[test]
fn time_is_asked_for_twice(rt: HostRuntime) {
    let image = app_image(&rt, b"\x90\x00", 2);
    let (mut end, mut medium) = selected(&rt, 256, image, b"3f");
    let ask = command(&rt, b"\x80\xa8\x00\x00");
    let answer = carried(&rt, &mut end, &mut medium, &ask);
    assert!(rt; answer.bytes() == b"\x90\x00".as_slice());
    begin(&rt, &medium, b"\x03\xf2\xf2\xb3\xf2");
    wait(&rt, &medium, &[16, 48, 48, 16, 48]);
    assert!(rt; medium.wire.log().records().len() == 2);
}

#[test]
fn two_commands_over_one_link(rt: HostRuntime) {
    let image = directory_image(&rt);
    let lost = fates(&rt, b"a");
    let mut link = OpenLink::open(rt.alloc(), &card(256), 8, image, lost, 3)
        .ok()
        .expect(&rt, "memory");
    let Ok(response) = link.transact(&Command::select(b"2PAY.SYS.DDF01")) else {
        panic!(rt; "no response");
    };
    assert!(rt; response.bytes() == PPSE_ANSWER);
    assert!(rt; link.log().spare() >= 2);
    let Ok(response) = link.transact(&Command::select(b"\xa0\x00\x00\x00\x03")) else {
        panic!(rt; "no response");
    };
    assert!(rt; response.bytes() == b"\x6a\x82".as_slice());
    assert!(rt; (link.exchanges(), link.log().records().len()) == (3, 2));
}
