//! The pieces of a line. Each is pushed at its end, and has room there.
ghost use Rattle.std.specs.Prelude.{◌≡◌, ◌≤◌, ◌+◌, ◌*◌, ◌++◌, length, decimal};
ghost use Rattle.hex.specs.Hex.{encode_lower};
ghost use Rattle.ep_claim.specs.Text.TraceLine.{wave_letter};

use ep_base::{COMMAND, LINE_BYTES, Line, Wave};
use itoa::Buffer;

/// A number in decimal digits, in trace lines and in those of a report (`report_text`).
pub fn push_number(number: u64, out: &mut Line)
    requires { length out.old.bytes + 20 ≤ LINE_BYTES }
    ensures text { out.new.bytes ≡ out.old.bytes ++ decimal number }
    ensures most { length out.new.bytes ≤ length out.old.bytes + 20 }
{
    let mut buffer = Buffer::new();
    out.push_str(buffer.format(number));
}

/// Bytes of a frame, a command or a response as hexadecimal digits in lower case, in trace lines and in those of a report
/// (`report_text`).
#[tactic(auto, using(crate::proofs::HexText::hex_is_text))]
pub fn push_hex(bytes: &[u8], out: &mut Line)
    requires few { length bytes.now ≤ COMMAND }
    requires room { length out.old.bytes + 2 * length bytes.now ≤ LINE_BYTES }
    ensures text { out.new.bytes ≡ out.old.bytes ++ encode_lower bytes.now }
    ensures most { length out.new.bytes ≤ length out.old.bytes + 2 * length bytes.now }
{
    let mut digits = [0; 2 * COMMAND];
    let room = &mut digits[..2 * bytes.len()];
    hex::encode_to_slice(bytes, room).unwrap();
    out.push_str(str::from_utf8(room).unwrap());
}

/// The letter of a wave.
pub(crate) fn wave_letter(wave: Wave) -> &'static str
    ensures letter { result.now ≡ wave_letter wave }
    ensures one { length result.now ≤ 1 }
{
    match wave {
        Wave::AShort => "S",
        Wave::ABare => "N",
        Wave::A => "A",
        Wave::B => "B",
    }
}
