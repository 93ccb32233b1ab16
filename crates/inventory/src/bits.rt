//! The bits of a level's four bytes, in sending order.
ghost use Rattle.std.specs.Prelude.{◌≡◌, ◌≤◌, ◌<◌, length, take, get_or, false};
ghost use Rattle.inventory.specs.Bits.{bits_of, begins as begins_with, known_bits, shared};
ghost use Rattle.inventory.specs.Prefixes.{with_bit as prefix_with_bit};
ghost use Rattle.ep_base.specs.Cards.TypeA.{bcc as bcc_of};

use crate::field::Prefix;

// Whether the bit at this place is set.
pub(crate) fn bit_at(bytes: &[u8; 4], at: u8) -> bool
    requires { at < 32 }
    ensures { result ≡ get_or (bits_of bytes.now) at false }
{
    (u32::from_le_bytes(*bytes) >> u32::from(at)) % 2 == 1
}

// The first `at` bits of these bytes, and then this bit.
pub(crate) fn with_bit(agreed: &[u8; 4], at: u8, bit: bool) -> Prefix
    requires { at < 32 }
    ensures { result ≡ prefix_with_bit agreed.now at bit }
{
    let next = 1u32 << u32::from(at);
    let before = u32::from_le_bytes(*agreed) % next;
    let number = if bit { before + next } else { before };
    Prefix {
        bytes: number.to_le_bytes(),
        bits: at + 1,
    }
}

// How many of the first `most` bits come before the first in which two values differ.
pub(crate) fn agreement(one: &[u8; 4], other: &[u8; 4], most: u8) -> u8
    requires { most ≤ 32 }
    ensures four { length one.now ≡ 4 }
    ensures most { result ≤ most }
    ensures shared { take result (bits_of one.now) ≡ shared (take most (bits_of one.now)) (bits_of other.now) }
{
    let mut at = 0;
    while at < most && bit_at(one, at) == bit_at(other, at) {
        at += 1;
    }
    at
}

// Whether these bytes begin with the known bits.
pub(crate) fn begins(bytes: &[u8; 4], known: &Prefix) -> bool
    requires { known.now.bits ≤ 32 }
    ensures { result ≡ begins_with (known_bits known.now) (bits_of bytes.now) }
{
    agreement(&known.bytes, bytes, known.bits) == known.bits
}

// The exclusive or of four bytes.
pub(crate) fn bcc(value: &[u8; 4]) -> u8
    ensures { result ≡ bcc_of value.now }
{
    (value[0] ^ value[1]) ^ (value[2] ^ value[3])
}
