//! What is in the air in an exchange, in the place where it stays.
ghost use Rattle.std.specs.Prelude.{◌≡◌};
ghost use Rattle.ep_base.specs.Air.Heard as air;
ghost use Rattle.ep_base.specs.Link.Wire as plain;
ghost use Rattle.rf_frame.specs.Meaning.{heard_of};
ghost use Rattle.rf_field.specs.Airs.{aired_of, one_more};
ghost use Rattle.rf_field.specs.Meaning.{way_of};

use crate::fates::Way;
use crate::ways::is_bare;
use rf_frame::{Burst, Heard, Sent, flip};

// Which sort of thing is in the air.
#[derive(Clone, Copy, Debug, PartialEq, Eq)]
pub(crate) enum Sound {
    // Nothing.
    Silence,
    // Something that is no frame.
    Noise,
    // Different answers at the same time.
    Overlap,
    // One frame.
    Frame,
}

// What is in the air. Where that is a frame, it stands in `sent`; else what was sent last does.
#[derive(Drop)]
pub(crate) struct Aired {
    pub(crate) sound: Sound,
    pub(crate) sent: Sent,
}

impl Aired {
    // Nothing is in the air.
    pub(crate) fn nothing() -> Aired
        ensures { aired_of result ≡ air.Silence }
    {
        Aired {
            sound: Sound::Silence,
            sent: Sent::blank(),
        }
    }

    // One more frame is in the air.
    pub(crate) fn add(&mut self, other: &Sent)
        ensures { aired_of self.new ≡ one_more (aired_of self.old) other.now }
    {
        match self.sound {
            Sound::Silence => {
                self.sound = Sound::Frame;
                self.sent.set(other);
            }
            Sound::Noise | Sound::Overlap => {}
            Sound::Frame => {
                if self.sent.wave != other.wave
                    || self.sent.frame.as_slice() != other.frame.as_slice()
                {
                    self.sound = Sound::Overlap;
                }
            }
        }
    }

    // What the reader hears where a burst falls on it.
    fn burst(&mut self, burst: Burst)
        ensures { aired_of self.new ≡ plain.burst_up burst.start burst.mask (aired_of self.old) }
    {
        match self.sound {
            Sound::Silence | Sound::Noise | Sound::Overlap => {}
            Sound::Frame => {
                let hit = flip(self.sent.wave, &mut self.sent.frame, burst);
                if is_bare(self.sent.wave) && hit {
                    self.sound = Sound::Noise;
                }
            }
        }
    }

    // What comes back of it to the reader.
    pub(crate) fn come_back(&mut self, way: Way)
        ensures { aired_of self.new ≡ plain.comes_back (way_of way) (aired_of self.old) }
    {
        match way {
            Way::Pass => {}
            Way::Burst(burst) => self.burst(burst),
            Way::Lose | Way::Leave => self.sound = Sound::Silence,
        }
    }

    // The reader hears it, in place of what it heard before.
    pub(crate) fn put(&self, heard: &mut Heard)
        ensures { heard_of heard.new ≡ aired_of self.now }
    {
        match self.sound {
            Sound::Silence => heard.set_silence(),
            Sound::Noise => *heard = Heard::Noise,
            Sound::Overlap => *heard = Heard::Overlap,
            Sound::Frame => heard.set_frame(self.sent.wave, &self.sent.frame),
        }
    }
}
