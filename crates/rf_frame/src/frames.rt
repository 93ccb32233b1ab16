//! Frames with their check bytes.
ghost use Rattle.std.specs.Prelude.{◌≡◌, ◌≤◌, length};
ghost use Rattle.std.specs.Option.{option_copied};
ghost use Rattle.arrayvec.specs.ArrayVec.{array_vec_len};
ghost use Rattle.ep_base.specs.Air.Frame.{is_good, ends_in_check, sealed, opened};

use crate::check;
use ep_base::{FRAME, FrameBuf, MESSAGE, Wave};

/// Puts these bytes, at most 256, in place of all that a frame has. This takes no memory.
pub fn refill(frame: &mut FrameBuf, bytes: &[u8])
    requires { length bytes.now ≤ FRAME }
    ensures { frame.new.items ≡ bytes.now }
{
    frame.clear();
    frame.try_extend_from_slice(bytes).unwrap();
}

/// The same frame again. This takes no memory.
pub fn copy_frame(frame: &FrameBuf) -> FrameBuf
    ensures { result ≡ frame.now }
{
    let mut copy = FrameBuf::new();
    copy.try_extend_from_slice(frame.as_slice()).unwrap();
    copy
}

/// Appends the check of a frame of wave `A` or `B`, the low byte first, and leaves a frame of the other waves as it is
/// (ISO/IEC 14443-3). The frame has at most 254 bytes before.
pub fn seal(wave: Wave, frame: &mut FrameBuf)
    requires { array_vec_len frame.old ≤ MESSAGE }
    ensures { frame.new.items ≡ sealed wave frame.old.items }
{
    match wave {
        Wave::AShort | Wave::ABare => {}
        Wave::A | Wave::B => {
            let sum = check(wave, frame.as_slice());
            frame.push((sum & 0xff) as u8);
            frame.push((sum >> 8) as u8);
        }
    }
}

/// Whether there are at least three bytes, of which the last two are the check of the others.
fn has_check(wave: Wave, bytes: &[u8]) -> bool
    ensures { result ≡ ends_in_check wave bytes.now }
{
    if bytes.len() < 3 {
        return false;
    }
    let (message, tail) = bytes.split_at(bytes.len() - 2);
    let sum = check(wave, message);
    u16::from(tail[0]) == sum & 0xff && u16::from(tail[1]) == sum >> 8
}

/// Whether a frame is good (ISO/IEC 14443-3): for wave `A` or `B` it has at least three bytes, of which the last two
/// are the check of the others. A frame of the other waves always is.
pub fn good(wave: Wave, bytes: &[u8]) -> bool
    ensures { result ≡ is_good wave bytes.now }
{
    match wave {
        Wave::AShort | Wave::ABare => true,
        Wave::A | Wave::B => has_check(wave, bytes),
    }
}

/// The bytes of a good frame without its check, and `None` where the frame isn't good.
pub fn open_frame(wave: Wave, frame: &FrameBuf) -> Option<&[u8]>
    ensures { option_copied result ≡ opened wave frame.now.items }
{
    let bytes = frame.as_slice();
    if !good(wave, bytes) {
        return None;
    }
    match wave {
        Wave::AShort | Wave::ABare => Some(bytes),
        Wave::A | Wave::B => Some(&bytes[..bytes.len() - 2]),
    }
}
