//! One card in an open link, under fates.
ghost use Rattle.std.specs.Prelude.{◌≡◌, ℕ, ◌<◌, ◌≤◌, ◌++◌, length, All, is_ok, IsOk, IsErr, IfOk};
ghost use Rattle.ep_base.specs.Streams.Causes.{HasCause};
ghost use Rattle.ep_base.specs.Air.Medium.{told};
ghost use Rattle.ep_base.specs.Link.Wire as plain;
ghost use Rattle.ep_base.specs.Link.Wire.{takes_frame};
ghost use Rattle.rf_frame.specs.Meaning.{maybe_heard, heard_into};
ghost use Rattle.rf_field.specs.Airs.{aired_of};
ghost use Rattle.rf_field.specs.Meaning.{IsRun, way_of, exchange_fates};
ghost use Rattle.rf_field.specs.Wires.{wire_of, heeds_by};

use crate::aired::{Aired, Sound};
use crate::fates::{FateRun, Way};
use crate::party::Party;
use crate::runs::Fates;
use crate::ways::burst_down;
use card_image::{CardImage, CardLog};
use ep_base::{CardKind, FRAME_16, FrameBuf, NoMemory, Wave};
use rf_frame::{Heard, Medium, RfFailed};
use std::alloc::Global;

/// A card that was activated, alone in the field. Each exchange takes the next fate, and all frames pass after the
/// last. While the log has no free record the card hears no frame.
#[derive(Drop)]
pub struct Wire {
    party: Party,
    log: CardLog,
    fates: Fates,
    // Whether the card left.
    gone: bool,
    exchanges: u64,
    // What was in the air last.
    aired: Aired,
}

impl Wire {
    /// A card of this kind and with this image, whose reader has frames of the size `fsd`: one that `frame_size`
    /// gives, which is 16 to 256 bytes. Each run of fates has at least one exchange. The log has room for so many
    /// records.
    ///
    /// Errors: `NoMemory`.
    pub fn open(
        alloc: Global,
        kind: CardKind,
        fsd: u16,
        image: CardImage,
        fates: Vec<FateRun>,
        room: usize,
    ) -> Result<Wire, NoMemory>
        requires least { 16 ≤ fsd }
        requires most { fsd ≤ FRAME_16 }
        requires runs { All IsRun fates.items }
        ensures ok { IfOk result (λ w. wire_of w ≡ plain.new_wire kind fsd image (exchange_fates fates.items) room) }
    {
        let log = CardLog::open(alloc, room)?;
        Ok(Wire {
            party: Party::open(kind, fsd, image),
            log,
            fates: Fates::of(fates),
            gone: false,
            exchanges: 0,
            aired: Aired::nothing(),
        })
    }

    /// The commands that the card executed.
    pub fn log(&self) -> &CardLog
        ensures records { result.now.0 ≡ (wire_of self.now).log }
        ensures room { result.now.1 ≡ (wire_of self.now).room }
    {
        &self.log
    }

    /// How many exchanges were made. The count stays at the end of its type.
    pub fn exchanges(&self) -> u64
        ensures value { result ≡ (wire_of self.now).exchanges }
    {
        self.exchanges
    }

    // What is in the air after the card heard a frame.
    fn hear(&mut self, wave: Wave, frame: &FrameBuf)
        requires { length (wire_of self.old).log < (wire_of self.old).room }
        ensures wire { wire_of self.new ≡ record (wire_of self.old) {
          party = (takes_frame (wire_of self.old).party wave frame.now.items).party;
          log = (wire_of self.old).log ++ (takes_frame (wire_of self.old).party wave frame.now.items).executed;
        } }
        ensures aired { aired_of self.new.aired ≡ plain.aired (takes_frame (wire_of self.old).party wave frame.now.items).answer }
    {
        if self
            .party
            .hear(wave, frame, &mut self.log, &mut self.aired.sent)
        {
            self.aired.sound = Sound::Frame;
        } else {
            self.aired.sound = Sound::Silence;
        }
    }

    // What is in the air after a frame that takes this way down.
    fn carry_down(&mut self, way: Way, wave: Wave, frame: &FrameBuf)
        ensures wire { wire_of self.new ≡ record (wire_of self.old) {
          party = (heeds_by (wire_of self.old) (way_of way) wave frame.now.items).party;
          log = (wire_of self.old).log ++ (heeds_by (wire_of self.old) (way_of way) wave frame.now.items).executed;
        } }
        ensures aired { aired_of self.new.aired ≡ plain.aired (heeds_by (wire_of self.old) (way_of way) wave frame.now.items).answer }
    {
        if self.gone || self.log.spare() == 0 {
            self.aired.sound = Sound::Silence;
            return;
        }
        match way {
            Way::Pass => self.hear(wave, frame),
            Way::Burst(burst) => match burst_down(wave, frame, burst) {
                None => self.aired.sound = Sound::Silence,
                Some(frame) => self.hear(wave, &frame),
            },
            Way::Lose | Way::Leave => self.aired.sound = Sound::Silence,
        }
    }
}

impl Medium for Wire {
    ghost use Rattle.ep_base.specs.Link.Wire as plain;
    ghost use Rattle.ep_base.specs.Air.Medium.{told};
    ghost use Rattle.rf_field.specs.Wires.{wire_of};

    ghost State = { plain.Wire };

    ghost state = { wire_of };

    ghost steps = { told plain.wire };

    ghost faults = { λ w. 0 };

    /// Does nothing: the link stays open. There is no error.
    fn reset(&mut self) -> Result<(), RfFailed>
        ensures step { (told plain.wire).resets (wire_of self.old) (is_ok result) (wire_of self.new) }
        ensures cause { HasCause 0 0 (IsErr result) }
        ensures always { IsOk result }
        ensures same { wire_of self.new ≡ wire_of self.old }
    {
        Ok(())
    }

    /// Makes one exchange. There is no error.
    fn send(&mut self, wave: Wave, frame: &FrameBuf, wait: u32) -> Result<Heard, RfFailed>
        ensures step { (told plain.wire).sends (wire_of self.old) wave frame.now.items wait (maybe_heard result) (wire_of self.new) }
        ensures cause { HasCause 0 0 (IsErr result) }
        ensures always { IsOk result }
    {
        let mut heard = Heard::Silence;
        self.send_into(wave, frame, wait, &mut heard)?;
        Ok(heard)
    }

    /// Makes one exchange, and writes what is heard in place of what stood there. There is no error.
    fn send_into(
        &mut self,
        wave: Wave,
        frame: &FrameBuf,
        _wait: u32,
        heard: &mut Heard,
    ) -> Result<(), RfFailed>
        ensures step { (told plain.wire).sends (wire_of self.old) wave frame.now.items _wait (heard_into result heard.new) (wire_of self.new) }
        ensures cause { HasCause 0 0 (IsErr result) }
        ensures always { IsOk result }
    {
        let fate = self.fates.next();
        self.carry_down(fate.down, wave, frame);
        self.gone = self.gone || fate.down == Way::Leave || fate.up == Way::Leave;
        self.exchanges = self.exchanges.saturating_add(1);
        self.aired.come_back(fate.up);
        self.aired.put(heard);
        Ok(())
    }
}
