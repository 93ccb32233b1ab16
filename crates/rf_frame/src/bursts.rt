//! Bursts: runs of at most sixteen bits of a frame that are inverted on the way.
ghost use Rattle.std.specs.Prelude.{◌≡◌, ◌≤◌, ◌<◌, ◌%◌, ◌^◌, IsTrue, IsFalse, ◌↔◌, length};
ghost use Rattle.ep_base.specs.Air.Frame.{is_good, bit_count, inverted, after_burst, hits, HasCheck, FallsOn, InvertsEach};

use crate::copy_frame;
use ep_base::{FRAME, FrameBuf, Wave};

/// A run of at most sixteen bits to be inverted: bit `start + i` of a frame, in sending order and from 0, for each set
/// bit i of the mask.
#[derive(Clone, Copy, Debug, PartialEq, Eq)]
pub struct Burst {
    /// The place of the bit that the mask's lowest bit stands for.
    pub start: u32,
    /// Which of the sixteen bits from there on are inverted.
    pub mask: u16,
}

/// How many bits of a frame of `len` bytes are sent: seven of a short frame's first byte, otherwise all.
fn sent_bit_count(wave: Wave, len: usize) -> usize
    requires { len ≤ FRAME }
    ensures { result ≡ bit_count wave len }
{
    match wave {
        Wave::AShort => (8 * len).min(7),
        Wave::ABare | Wave::A | Wave::B => 8 * len,
    }
}

/// The lowest `room` bits of a mask.
fn cut_mask(mask: u16, room: usize) -> u32
    ensures value { result ≡ mask % 2 ^ room }
    ensures fits { result < 2 ^ 16 }
{
    u32::from(mask) % (1 << room.min(16))
}

/// Inverts bit i of byte k for each set bit `8 k + i` of the pattern.
fn invert(bytes: &mut [u8], mut pattern: u32)
    ensures { bytes.new ≡ inverted pattern bytes.old }
{
    for byte in bytes.iter_mut() {
        *byte ^= (pattern & 0xff) as u8;
        pattern >>= 8;
    }
}

/// Applies a burst in place, as far as the frame has bits, and says whether a bit was inverted. A frame of wave
/// `AShort` has the low seven bits of its first byte, every other frame eight bits a byte.
pub fn flip(wave: Wave, frame: &mut FrameBuf, burst: Burst) -> bool
    ensures after { frame.new.items ≡ after_burst wave burst.start burst.mask frame.old.items }
    ensures places { InvertsEach wave burst.start burst.mask frame.old.items frame.new.items }
    ensures flipped { result ≡ hits wave burst.start burst.mask frame.old.items }
    ensures cause { IsTrue result ↔ FallsOn wave burst.start burst.mask (length frame.old.items) }
{
    let bits = sent_bit_count(wave, frame.len());
    let start = burst.start as usize;
    if start >= bits {
        return false;
    }
    let cut = cut_mask(burst.mask, bits - start);
    let bytes = frame.as_mut_slice();
    invert(&mut bytes[start / 8..], cut << (start % 8));
    cut != 0
}

/// Whether a burst inverts a bit of a good frame of wave `A` or `B`. Where it does, the frame after it isn't good.
pub fn burst_seen(wave: Wave, frame: &FrameBuf, burst: Burst) -> bool
    requires checked { HasCheck wave }
    requires good { IsTrue (is_good wave frame.now.items) }
    ensures flipped { result ≡ hits wave burst.start burst.mask frame.now.items }
    ensures cause { IsTrue result ↔ FallsOn wave burst.start burst.mask (length frame.now.items) }
    ensures seen { IsTrue result → IsFalse (is_good wave (after_burst wave burst.start burst.mask frame.now.items)) }
{
    let _mask = burst.mask;
    let mut copy = copy_frame(frame);
    flip(wave, &mut copy, burst)
}
