//! The texts that say what becomes of the frames of one exchange.
ghost use Rattle.std.specs.Prelude.{◌≡◌, ◌<◌, ◌≤◌, ◌^◌, option_map, IfSome};
ghost use Rattle.std.specs.Str.{all_ascii_digits};
ghost use Rattle.rf_field.specs.Meaning.{way_of, fate_of};
ghost use Rattle.fate_table.specs.Tokens.{after_letter, burst_spelled, cut_at_colon, way_of_text, mask_spelled, fate_of_text, start_spelled};

use doc_table::sized;
use ep_base::LAST_START;
use rf_field::{Burst, Fate, Way};

/// What becomes of the frames of one exchange: two tokens with one space between, first that of the reader's frame.
/// `None` where the text has another form.
#[tactic(auto, unfolding(crate::specs::Tokens::fate_of_text, ep_base::specs::Streams::Words::split_word))]
pub(crate) fn fate_spelled(text: &str) -> Option<Fate>
    ensures { option_map fate_of result ≡ fate_of_text text.now }
{
    let (first, second) = text.split_once(' ')?;
    let down = way_spelled(first)?;
    let up = way_spelled(second)?;
    Some(Fate { down, up })
}

// What becomes of one frame.
fn way_spelled(token: &str) -> Option<Way>
    ensures { option_map way_of result ≡ way_of_text token.now }
{
    match token {
        "-" => Some(Way::Pass),
        "x" => Some(Way::Lose),
        "v" => Some(Way::Leave),
        _ => burst_spelled(token),
    }
}

// A burst.
fn burst_spelled(token: &str) -> Option<Way>
    ensures { option_map way_of result ≡ burst_spelled token.now }
{
    let text = after_letter(token)?;
    let (digits, hex_digits) = cut_at_colon(text)?;
    let start = start_spelled(digits)?;
    let mask = mask_spelled(hex_digits)?;
    Some(Way::Burst(Burst { start, mask }))
}

// What stands after the letter of a burst.
fn after_letter(token: &str) -> Option<&str>
    ensures { option_map (λ t. t.now) result ≡ after_letter token.now }
{
    token.strip_prefix('b')
}

// What stands before the first colon, and what stands after it.
fn cut_at_colon(text: &str) -> Option<(&str, &str)>
    ensures { option_map (λ p. (p.0.now, p.1.now)) result ≡ cut_at_colon text.now }
{
    text.split_once(':')
}

// The start of a burst, of 1 to 4 decimal digits.
fn start_spelled(digits: &str) -> Option<u32>
    ensures { result ≡ start_spelled digits.now }
{
    let count = digits.len();
    if count < 1 || 4 < count || !are_digits(digits.as_bytes()) {
        return None;
    }
    match digits.parse::<u32>() {
        Ok(start) if start <= LAST_START => Some(start),
        Ok(_) => None,
        Err(_) => None,
    }
}

// Whether all bytes are decimal digits.
fn are_digits(bytes: &[u8]) -> bool
    ensures { result ≡ all_ascii_digits bytes.now }
{
    for byte in bytes {
        if !byte.is_ascii_digit() {
            return false;
        }
    }
    true
}

// The bits of a burst, of four hexadecimal digits.
fn mask_spelled(digits: &str) -> Option<u16>
    ensures { result ≡ mask_spelled digits.now }
{
    let bytes = sized::<2>(digits, 2, 2)?;
    Some(u16::from_be_bytes([bytes[0], bytes[1]]))
}
