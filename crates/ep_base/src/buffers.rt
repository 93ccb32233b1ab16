//! Buffers of fixed size, and the sizes of frames.
ghost use Rattle.std.specs.Prelude.{◌≡◌, ◌<◌, ◌≤◌};
ghost use Rattle.ep_base.specs.Air.FrameSize.{frame_size};

use crate::limits::{FRAME, FRAME_16, LINE_BYTES};
use arrayvec::{ArrayString, ArrayVec};

/// A buffer of at most `N` bytes.
pub type Buf<const N: usize> = ArrayVec<u8, N>;

/// The bytes of one frame, its check bytes among them.
pub type FrameBuf = Buf<FRAME>;

/// One line of output with its newline.
pub type Line = ArrayString<LINE_BYTES>;

/// The frame size of a code, in bytes, the prologue and the check bytes among them (ISO/IEC 14443-4; that codes 9 to
/// 15 count as 256 is this project's profile).
#[tactic(auto, unfolding(crate::specs::Air::FrameSize::frame_size))]
pub fn frame_size(code: u8) -> u16
    requires { code < 16 }
    ensures size { result ≡ frame_size code }
    ensures least { 16 ≤ result }
    ensures most { result ≤ FRAME }
{
    if code < 5 {
        16 + 8 * u16::from(code)
    } else if code == 5 {
        64
    } else if code == 6 {
        96
    } else if code == 7 {
        128
    } else {
        FRAME_16
    }
}
