//! The fields of a line that is read.
ghost use Rattle.std.specs.Prelude.{◌≡◌, ◌≤◌, ◌<◌, ◌^◌, length, option_map, IfSome};
ghost use Rattle.ep_claim.specs.Text.TraceLine.{after_equals, answer_wave, frame_spelled, framed_spelled, heard_spelled, number_in, number_that, wave_named};
ghost use Rattle.ep_base.specs.Streams.Words.{split_word};
ghost use Rattle.rf_frame.specs.Meaning.{heard_of};

use ep_base::{FRAME, FrameBuf, Wave};
use itoa::Buffer;
use rf_frame::Heard;

/// A word, and what stands after the space that ends it.
#[tactic(auto, unfolding(ep_base::specs::Streams::Words::split_word))]
pub(crate) fn cut(text: &str) -> Option<(&str, &str)>
    ensures { option_map (λ p. (p.0.now, p.1.now)) result ≡ split_word text.now }
{
    text.split_once(' ')
}

/// The number from `low` to `high` that a text writes in decimal digits, without a leading zero.
pub(crate) fn number_in(text: &str, low: u32, high: u32) -> Option<u32>
    ensures value { result ≡ number_in low high text.now }
    ensures most { IfSome result (λ n. n ≤ high) }
{
    match text.parse::<u32>() {
        Ok(number) => number_that(number, text, low, high),
        Err(_) => None,
    }
}

// A number, if it is one from `low` to `high` and the text is its decimal digits.
fn number_that(number: u32, text: &str, low: u32, high: u32) -> Option<u32>
    ensures value { result ≡ number_that low high text.now number }
    ensures most { IfSome result (λ n. n ≤ high) }
{
    let mut buffer = Buffer::new();
    if text == buffer.format(number) && low <= number && number <= high {
        Some(number)
    } else {
        None
    }
}

/// The wave that has this letter.
#[tactic(auto, unfolding(ep_claim::specs::Text::TraceLine::wave_named))]
pub(crate) fn wave_named(letter: &str) -> Option<Wave>
    ensures { result ≡ wave_named letter.now }
{
    match letter {
        "S" => Some(Wave::AShort),
        "N" => Some(Wave::ABare),
        "A" => Some(Wave::A),
        "B" => Some(Wave::B),
        _ => None,
    }
}

/// The frame of 1 to 256 bytes that hexadecimal digits of either case spell.
#[tactic(auto, unfolding(ep_claim::specs::Text::TraceLine::frame_spelled))]
pub(crate) fn frame_spelled(digits: &str) -> Option<FrameBuf>
    ensures { option_map (λ b. b.items) result ≡ frame_spelled digits.now }
{
    let count = digits.len() / 2;
    if count < 1 || FRAME < count {
        return None;
    }
    let mut room = [0u8; FRAME];
    match hex::decode_to_slice(digits, &mut room[..count]) {
        Err(_) => None,
        Ok(()) => FrameBuf::try_from(&room[..count]).ok(),
    }
}

/// What a text says was heard after a frame of this wave.
#[tactic(auto, unfolding(ep_claim::specs::Text::TraceLine::heard_spelled))]
pub(crate) fn heard_spelled(sent: Wave, text: &str) -> Option<Heard>
    ensures { option_map heard_of result ≡ heard_spelled sent text.now }
{
    match text {
        "-" => Some(Heard::Silence),
        "?" => Some(Heard::Noise),
        "*" => Some(Heard::Overlap),
        _ => framed_spelled(answer_wave(sent), text),
    }
}

// The frame that stands after an equals sign.
fn framed_spelled(wave: Wave, text: &str) -> Option<Heard>
    ensures { option_map heard_of result ≡ framed_spelled wave text.now }
{
    let digits = after_equals(text)?;
    let bytes = frame_spelled(digits)?;
    Some(Heard::Frame { wave, bytes })
}

// What stands after an equals sign.
fn after_equals(text: &str) -> Option<&str>
    ensures { option_map (λ d. d.now) result ≡ after_equals text.now }
{
    text.strip_prefix('=')
}

// The wave of the answer to a frame.
fn answer_wave(sent: Wave) -> Wave
    ensures { result ≡ answer_wave sent }
{
    match sent {
        Wave::AShort | Wave::ABare => Wave::ABare,
        Wave::A => Wave::A,
        Wave::B => Wave::B,
    }
}
