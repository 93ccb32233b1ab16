//! What is asked and heard in one exchange.
ghost use Rattle.std.specs.Prelude.{◌≡◌, false, []};
ghost use Rattle.ep_base.specs.declared.air.Wave.TheVariants as waves;
ghost use Rattle.rf_frame.specs.declared.air.Heard.TheVariants as variants;
ghost use Rattle.ep_base.specs.Air.Heard.{is_silent as silent};
ghost use Rattle.rf_frame.specs.Meaning.{heard_of};

use crate::{copy_frame, refill};
use ep_base::{FrameBuf, Wave};
use std::marker::Model;

/// What is heard in one exchange.
#[derive(Debug, PartialEq, Eq, Drop)]
pub enum Heard {
    /// Nothing.
    Silence,
    /// Something that is no frame.
    Noise,
    /// Different answers at the same time.
    Overlap,
    /// One frame, damaged or not.
    Frame {
        /// How it was sent.
        wave: Wave,
        /// All its bytes, the check bytes among them.
        bytes: FrameBuf,
    },
}

impl Default for Heard {
    ghost use Rattle.rf_frame.specs.declared.air.Heard.TheVariants as variants;

    ghost is_default = { λ h. h ≡ variants.Silence };

    fn default() -> Heard {
        Heard::Silence
    }
}

impl Heard {
    /// Whether nothing was heard. Noise and overlapping answers are something.
    pub fn is_silent(&self) -> bool
        ensures { result ≡ silent (heard_of self.now) }
    {
        match self {
            Heard::Silence => true,
            Heard::Noise | Heard::Overlap | Heard::Frame { .. } => false,
        }
    }

    /// Becomes the same as another one. This takes no memory.
    pub fn set(&mut self, other: &Heard)
        ensures same { self.new ≡ other.now }
    {
        match other {
            Heard::Silence => self.set_silence(),
            Heard::Noise => *self = Heard::Noise,
            Heard::Overlap => *self = Heard::Overlap,
            Heard::Frame { wave, bytes } => self.set_frame(*wave, bytes),
        }
    }

    /// Becomes nothing. This takes no memory.
    pub fn set_silence(&mut self)
        ensures silence { self.new ≡ variants.Silence }
    {
        if !self.is_silent() {
            *self = Heard::Silence;
        }
    }

    /// Becomes a frame with these bytes. This takes no memory.
    pub fn set_frame(&mut self, wave: Wave, frame: &FrameBuf)
        ensures frame { self.new ≡ variants.Frame wave frame.now }
    {
        match self {
            Heard::Frame { wave: sent, bytes } => {
                *sent = wave;
                refill(bytes, frame.as_slice());
            }
            Heard::Silence | Heard::Noise | Heard::Overlap => {
                *self = Heard::Frame {
                    wave,
                    bytes: copy_frame(frame),
                };
            }
        }
    }

    /// The same again. This takes no memory.
    pub fn copy(&self) -> Heard
        ensures { result ≡ self.now }
    {
        match self {
            Heard::Silence => Heard::Silence,
            Heard::Noise => Heard::Noise,
            Heard::Overlap => Heard::Overlap,
            Heard::Frame { wave, bytes } => Heard::Frame {
                wave: *wave,
                bytes: copy_frame(bytes),
            },
        }
    }
}

/// What is asked in one exchange.
#[derive(Debug, PartialEq, Eq, Drop)]
pub struct Ask {
    /// Whether the field is reset before.
    pub reset: bool,
    /// How the frame is sent.
    pub wave: Wave,
    /// All bytes of the frame, the check bytes among them.
    pub frame: FrameBuf,
    /// The waiting number of the block, and 0 for a frame outside the block protocol (ISO/IEC 14443-4).
    pub wait: u32,
}

impl Model for Ask {
    ghost use Rattle.ep_base.specs.Air.Heard.{Ask as AskData};

    ghost Value = { AskData };

    ghost view = { λ a. record { reset = a.reset; wave = a.wave; bytes = a.frame.items; wait = a.wait } };

    ghost inverse = { λ a. record { reset = a.reset; wave = a.wave; frame = record { items = a.bytes }; wait = a.wait } };
}

impl Ask {
    /// What stands where nothing was asked yet: no reset, wave `A`, no bytes and the waiting number 0.
    pub fn blank() -> Ask
        ensures value { result ≡ record { reset = false; wave = waves.A; bytes = []; wait = 0 } }
    {
        Ask {
            reset: false,
            wave: Wave::A,
            frame: FrameBuf::new(),
            wait: 0,
        }
    }

    /// The same again. This takes no memory.
    pub fn copy(&self) -> Ask
        ensures { result ≡ self.now }
    {
        Ask {
            reset: self.reset,
            wave: self.wave,
            frame: copy_frame(&self.frame),
            wait: self.wait,
        }
    }
}

/// A frame that a card sends.
#[derive(Debug, PartialEq, Eq, Drop)]
pub struct Sent {
    /// How it is sent.
    pub wave: Wave,
    /// All its bytes, the check bytes among them.
    pub frame: FrameBuf,
}

impl Model for Sent {
    ghost use Rattle.ep_base.specs.Air.Heard.{Sent as SentData};

    ghost Value = { SentData };

    ghost view = { λ s. record { wave = s.wave; bytes = s.frame.items } };

    ghost inverse = { λ f. record { wave = f.wave; frame = record { items = f.bytes } } };
}

impl Sent {
    /// What stands where nothing was sent yet: wave `A` and no bytes.
    pub fn blank() -> Sent
        ensures value { result ≡ record { wave = waves.A; bytes = [] } }
    {
        Sent {
            wave: Wave::A,
            frame: FrameBuf::new(),
        }
    }

    /// Becomes the same as another one. This takes no memory.
    pub fn set(&mut self, other: &Sent)
        ensures same { self.new ≡ other.now }
    {
        self.wave = other.wave;
        refill(&mut self.frame, other.frame.as_slice());
    }

    /// The same again. This takes no memory.
    pub fn copy(&self) -> Sent
        ensures { result ≡ self.now }
    {
        Sent {
            wave: self.wave,
            frame: copy_frame(&self.frame),
        }
    }
}
