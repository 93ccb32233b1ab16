//! An exchange, and its line.
ghost use Rattle.std.specs.Prelude.{◌≡◌, ◌≤◌, ◌<◌, ◌+◌, ◌*◌, ◌++◌, [], length};
ghost use Rattle.ep_claim.specs.Text.TraceLine.{heard_text, shown_text, trace_line};
ghost use Rattle.ep_claim.specs.Lanes.ReplayRun.{same_shown};
ghost use Rattle.rf_frame.specs.Meaning.{heard_of};
ghost use Rattle.trace_io.specs.Meaning.{traced_of};

use crate::pieces::{push_hex, push_number, wave_letter};
use ep_base::{FRAME, FrameBuf, LINE_BYTES, Line, Wave};
use rf_frame::{Heard, copy_frame};
use std::marker::Model;

/// What a lane sends in one exchange.
#[derive(Debug, PartialEq, Eq, Drop)]
pub struct Shown {
    /// The number of the lane, counted from 1.
    pub lane: u8,
    /// How the frame is sent.
    pub wave: Wave,
    /// All its bytes, the check bytes among them.
    pub frame: FrameBuf,
    /// The waiting number of the block, and 0 for a frame outside the block protocol (ISO/IEC 14443-4).
    pub wait: u32,
}

impl Model for Shown {
    ghost use Rattle.ep_claim.specs.Text.TraceLine.{Shown};

    ghost Value = { Shown };

    ghost view = { λ s. record { lane = s.lane; wave = s.wave; frame = s.frame.items; wait = s.wait } };

    ghost inverse = { λ s. record { lane = s.lane; wave = s.wave; frame = record { items = s.frame }; wait = s.wait } };
}

impl Shown {
    /// The same again. This takes no memory.
    pub fn copy(&self) -> Shown
        ensures { result ≡ self.now }
    {
        Shown {
            lane: self.lane,
            wave: self.wave,
            frame: copy_frame(&self.frame),
            wait: self.wait,
        }
    }
}

/// Whether lane, wave, frame and waiting number are the same.
pub(crate) fn same_shown(a: &Shown, b: &Shown) -> bool
    ensures { result ≡ same_shown a.now b.now }
{
    a.lane == b.lane
        && a.wave == b.wave
        && a.frame.as_slice() == b.frame.as_slice()
        && a.wait == b.wait
}

/// One exchange of a lane.
#[derive(Debug, PartialEq, Eq, Drop)]
pub struct TraceLine {
    /// What the lane sent.
    pub sent: Shown,
    /// What it heard.
    pub heard: Heard,
}

/// Writes the line of an exchange, with its newline: the lane, the letter of the wave, the frame with its check bytes,
/// the waiting number, and what was heard. `out` is empty, and every line fits.
#[tactic(auto, unfolding(ep_claim::specs::Text::TraceLine::trace_line))]
pub fn trace_line(line: &TraceLine, out: &mut Line)
    requires { out.old.bytes ≡ [] }
    ensures { out.new.bytes ≡ trace_line (traced_of line.now) }
{
    out.push_str("x ");
    push_shown(&line.sent, out);
    out.push_str(" ");
    push_heard(&line.heard, out);
    out.push_str("\n");
}

/// What was sent.
pub(crate) fn push_shown(sent: &Shown, out: &mut Line)
    requires { length out.old.bytes + (2 * FRAME + 48) ≤ LINE_BYTES }
    ensures text { out.new.bytes ≡ out.old.bytes ++ shown_text sent.now }
    ensures most { length out.new.bytes ≤ length out.old.bytes + (2 * FRAME + 48) }
{
    push_number(u64::from(sent.lane), out);
    out.push_str(" ");
    out.push_str(wave_letter(sent.wave));
    out.push_str(" ");
    push_hex(sent.frame.as_slice(), out);
    out.push_str(" ");
    push_number(u64::from(sent.wait), out);
}

// What was heard.
fn push_heard(heard: &Heard, out: &mut Line)
    requires { length out.old.bytes + (2 * FRAME + 1) < LINE_BYTES }
    ensures text { out.new.bytes ≡ out.old.bytes ++ heard_text (heard_of heard.now) }
    ensures most { length out.new.bytes < LINE_BYTES }
{
    match heard {
        Heard::Silence => out.push_str("-"),
        Heard::Noise => out.push_str("?"),
        Heard::Overlap => out.push_str("*"),
        Heard::Frame { wave: _, bytes } => {
            out.push_str("=");
            push_hex(bytes.as_slice(), out);
        }
    }
}
