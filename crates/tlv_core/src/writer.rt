//! Tags and lengths, written in their shortest form.
ghost use Rattle.std.specs.Prelude.{◌≡◌, ◌+◌, ◌≤◌, ◌<◌, ◌++◌, length, MatchBool};
ghost use Rattle.arrayvec.specs.ArrayVec.{array_vec_len};
ghost use Rattle.tlv_core.specs.Written.{IsTagNumber, SpellsTag, SpellsLength, Appends, HasNoRoom};

use ep_base::{FRAME, FrameBuf};

/// Appends all of the bytes, or none where they don't fit.
fn append(out: &mut FrameBuf, bytes: &[u8]) -> bool
    ensures { MatchBool result
        (out.new.items ≡ out.old.items ++ bytes.now)
        ((out.new.items ≡ out.old.items) × (FRAME < array_vec_len out.old + length bytes.now)) }
{
    out.try_extend_from_slice(bytes).is_ok()
}

/// Appends the bytes of the tag, one to three, and says whether there was room: false leaves `out` as it is.
///
/// The tag is the number that its bytes spell, the first byte highest, and one that `read` accepts.
pub fn write_tag(out: &mut FrameBuf, tag: u32) -> bool
    requires { IsTagNumber tag }
    ensures { MatchBool result (Appends (SpellsTag tag) out.old out.new) (HasNoRoom (SpellsTag tag) out.old out.new) }
{
    let [_, high, middle, low] = tag.to_be_bytes();
    if high != 0 {
        return append(out, &[high, middle, low]);
    }
    if middle != 0 {
        return append(out, &[middle, low]);
    }
    append(out, &[low])
}

/// Appends the shortest bytes that say the length, one to three, and says whether there was room: false leaves `out`
/// as it is.
pub fn write_length(out: &mut FrameBuf, len: u16) -> bool
    ensures { MatchBool result (Appends (SpellsLength len) out.old out.new) (HasNoRoom (SpellsLength len) out.old out.new) }
{
    let [high, low] = len.to_be_bytes();
    if high != 0 {
        return append(out, &[0x82, high, low]);
    }
    if low >= 0x80 {
        return append(out, &[0x81, low]);
    }
    append(out, &[low])
}
