//! What a breach shows.
ghost use Rattle.std.specs.Prelude.{◌≡◌};
ghost use Rattle.ep_base.specs.Link.LinkFrames.{frame_heard as bytes_heard, phase_shown};
ghost use Rattle.ep_base.specs.Link.ReaderEnd.{Reader};
ghost use Rattle.rf_frame.specs.Meaning.{heard_of};
ghost use Rattle.block_reader.specs.Progress.{course, IsAt};
ghost use Rattle.block_reader.specs.Follows.{breach_in};
ghost use Rattle.block_reader.specs.Stands.{held};

use crate::progress::Progress;
use crate::stages::Stage;
use crate::{Breach, Phase, ReaderEnd};
use ep_base::FrameBuf;
use rf_frame::{Heard, copy_frame};

/// All bytes of the frame that was heard.
fn frame_heard(heard: &Heard) -> FrameBuf
    ensures { result.items ≡ bytes_heard (heard_of heard.now) }
{
    match heard {
        Heard::Silence | Heard::Noise | Heard::Overlap => FrameBuf::new(),
        Heard::Frame { bytes, .. } => copy_frame(bytes),
    }
}

impl Progress {
    /// What the reader does while a command is open.
    pub(crate) fn phase(&self) -> Phase
        ensures by_rules { (r : Reader) → IsAt (course self.now) r → result ≡ phase_shown r.phase }
    {
        match self.stage {
            Stage::Receiving => Phase::Receiving,
            _ => Phase::Sending,
        }
    }
}

impl ReaderEnd {
    /// What a breach in this phase shows, at which this was heard.
    pub fn breach(&self, phase: Phase, heard: &Heard) -> Breach
        ensures value { result ≡ breach_in phase (held self.now) (heard_of heard.now) }
    {
        Breach {
            frame: frame_heard(heard),
            number: u8::from(self.progress.number),
            phase,
            wtx: self.progress.wtx,
        }
    }
}
