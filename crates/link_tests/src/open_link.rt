//! A link with both of its ends.
ghost use Rattle.std.specs.Prelude.{◌≡◌, ◌<◌, ◌≤◌, ◌+◌, All, IfOk, length};
ghost use Rattle.link.specs.Carried.{ByWire};
ghost use Rattle.ep_base.specs.Air.FrameSize as sizes;
ghost use Rattle.ep_base.specs.Link.Wire.{new_wire};
ghost use Rattle.rf_field.specs.Meaning.{IsRun, exchange_fates};
ghost use Rattle.link_tests.specs.Open.{end_of, far_end, IsReady};

use apdu::{Command, Response};
use block_reader::ReaderEnd;
use card_image::{CardImage, CardLog};
use ep_base::{FRAME, NoMemory, frame_size};
use link::{LinkEnd, carry};
use rf_field::{FateRun, Wire};
use rf_frame::Activated;
use std::alloc::Global;

/// A reader's end, and the card that it was opened for.
#[derive(Drop)]
pub struct OpenLink {
    end: ReaderEnd,
    wire: Wire,
}

impl OpenLink {
    /// The link to a card that was just activated by a reader whose frame size has this code, under these fates, with
    /// room for so many records, at least two.
    ///
    /// Errors: `NoMemory`.
    pub fn open(
        alloc: Global,
        card: &Activated,
        fsdi: u8,
        image: CardImage,
        fates: Vec<FateRun>,
        room: usize,
    ) -> Result<OpenLink, NoMemory>
        requires code { fsdi < 16 }
        requires least { 16 ≤ card.now.fsc }
        requires most { card.now.fsc ≤ FRAME }
        requires fwi { card.now.fwi ≤ 14 }
        requires runs { All IsRun fates.items }
        requires room { 2 ≤ room }
        ensures ready { IfOk result (λ l. IsReady (end_of l) (far_end l)) }
        ensures card { IfOk result (λ l. far_end l ≡ new_wire card.now.kind (sizes.frame_size fsdi) image (exchange_fates fates.items) room) }
    {
        let _number = image.number();
        let end = ReaderEnd::open(card, fsdi);
        let fsd = frame_size(fsdi);
        let wire = Wire::open(alloc, card.kind, fsd, image, fates, room)?;
        Ok(OpenLink { end, wire })
    }

    /// Carries a command while the link is between two commands and the log has two free records. Whatever becomes of
    /// the frames, it is answered with its card's response and was executed exactly once, and the link is ready again
    /// as long as there is room; or the link is spent after three bad hearings since the reader's last toggle, and it
    /// was executed at most once. No block is outside the rules, and no device fails.
    ///
    /// Errors: `Spent` with 3.
    pub fn transact(&mut self, command: &Command) -> Result<Response, LinkEnd>
        requires ready { IsReady (end_of self.old) (far_end self.old) }
        ensures once { ByWire result (end_of self.new) (far_end self.old) command.now (far_end self.new) }
        ensures again { IfOk result (λ r. length (far_end self.new).log + 2 ≤ (far_end self.new).room → IsReady (end_of self.new) (far_end self.new)) }
    {
        carry(&mut self.end, &mut self.wire, command)
    }

    /// What the card executed.
    pub fn log(&self) -> &CardLog
        ensures records { result.now.0 ≡ (far_end self.now).log }
        ensures room { result.now.1 ≡ (far_end self.now).room }
    {
        self.wire.log()
    }

    /// How many exchanges were made.
    pub fn exchanges(&self) -> u64
        ensures { result ≡ (far_end self.now).exchanges }
    {
        self.wire.exchanges()
    }
}
