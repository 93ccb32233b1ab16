//! The check of a message, a byte a step by a table (ISO/IEC 14443-3).
ghost use Rattle.std.specs.Prelude.{◌≡◌};
ghost use Rattle.ep_base.specs.Air.Check.{register_after, low_bits, sent_bits};
ghost use Rattle.ep_base.specs.Air.Frame.{check_of};

use crate::table::word;
use ep_base::Wave;

/// The register after the eight bits of a byte, the lowest first.
fn take_byte(register: u16, byte: u8) -> u16
    ensures { result ≡ register_after register (low_bits 8 byte) }
{
    let low = (register & 0xff) as u8;
    (register >> 8) ^ word(low ^ byte)
}

/// The register after a message.
fn take_bytes(mut register: u16, bytes: &[u8]) -> u16
    ensures { result ≡ register_after register (sent_bits bytes.now) }
{
    for byte in bytes {
        register = take_byte(register, *byte);
    }
    register
}

/// The check of a message (ISO/IEC 14443-3): CRC_B for wave `B`, and CRC_A for the others. It is sent low byte first.
pub fn check(wave: Wave, bytes: &[u8]) -> u16
    ensures { result ≡ check_of wave bytes.now }
{
    match wave {
        Wave::B => !take_bytes(0xffff, bytes),
        Wave::AShort | Wave::ABare | Wave::A => take_bytes(0x6363, bytes),
    }
}
