//! Lines that are read.
ghost use Rattle.std.specs.Prelude.{◌≡◌, option_map};
ghost use Rattle.ep_claim.specs.Text.TraceLine.{read_shown, read_trace_line};
ghost use Rattle.trace_io.specs.Meaning.{traced_of};

use crate::fields::{cut, frame_spelled, heard_spelled, number_in, wave_named};
use crate::{Shown, TraceLine};

/// Reads a trace line without its newline: lane 1 to 8, waiting number 0 to 16384, frames of 1 to 256 bytes, numbers
/// without leading zeros, and hexadecimal digits in either case. A frame that was heard has the wave with check bytes
/// where the one that was sent has it. `None` where the text has another form.
#[tactic(auto, unfolding(ep_claim::specs::Text::TraceLine::read_trace_line))]
pub fn read_trace_line(text: &str) -> Option<TraceLine>
    ensures { option_map traced_of result ≡ read_trace_line text.now }
{
    let (mark, body) = cut(text)?;
    if mark != "x" {
        return None;
    }
    let (sent, answer) = read_shown(body)?;
    let heard = heard_spelled(sent.wave, answer)?;
    Some(TraceLine { sent, heard })
}

// What was sent, and what stands after it.
#[tactic(auto, unfolding(ep_claim::specs::Text::TraceLine::read_shown))]
fn read_shown(text: &str) -> Option<(Shown, &str)>
    ensures { option_map (λ p. (p.0, p.1.now)) result ≡ read_shown text.now }
{
    let (lane, text) = cut(text)?;
    let lane = number_in(lane, 1, 8)?;
    let (letter, text) = cut(text)?;
    let wave = wave_named(letter)?;
    let (digits, text) = cut(text)?;
    let frame = frame_spelled(digits)?;
    let (wait, text) = cut(text)?;
    let wait = number_in(wait, 0, 16384)?;
    let sent = Shown {
        lane: lane as u8,
        wave,
        frame,
        wait,
    };
    Some((sent, text))
}
