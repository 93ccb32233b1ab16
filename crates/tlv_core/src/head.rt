//! The tag and the length at the front of an object.
ghost use Rattle.std.specs.Prelude.{◌≡◌, ◌<◌, ◌≤◌, ◌+◌, length, IfOk, true};
ghost use Rattle.tlv_core.specs.Scan.{tag_at, length_at, head_at};

use ep_base::TlvFault;

/// The tag and the length of an object, and how many bytes they take.
#[derive(Clone, Copy)]
pub(crate) struct Head {
    pub(crate) tag: u32,
    pub(crate) constructed: bool,
    pub(crate) size: usize,
    pub(crate) len: usize,
}

/// The tag, and how many bytes it takes.
fn tag_of(bytes: &[u8]) -> Result<(u32, usize), TlvFault>
    ensures gives { result ≡ tag_at bytes.now }
    ensures within { IfOk result (λ t. (0 < t.1) × (t.1 ≤ length bytes.now)) }
{
    match bytes {
        [] => Err(TlvFault::TagCut),
        [b, ..] if *b & 0x1f != 0x1f => Ok((u32::from(*b), 1)),
        [b, c, ..] if *c < 0x80 => Ok((256 * u32::from(*b) + u32::from(*c), 2)),
        [b, c, d, ..] if *d < 0x80 => {
            Ok((
                256 * (256 * u32::from(*b) + u32::from(*c)) + u32::from(*d),
                3,
            ))
        }
        [_, _, _, _, ..] => Err(TlvFault::TagLong),
        _ => Err(TlvFault::TagCut),
    }
}

/// The length, and how many bytes it takes.
fn length_of(bytes: &[u8]) -> Result<(usize, usize), TlvFault>
    ensures gives { result ≡ length_at bytes.now }
    ensures within { IfOk result (λ l. l.1 ≤ length bytes.now) }
{
    match bytes {
        [] => Err(TlvFault::LengthCut),
        [l, ..] if *l < 0x80 => Ok((usize::from(*l), 1)),
        [0x81, a, ..] => Ok((usize::from(*a), 2)),
        [0x82, a, b, ..] => Ok((256 * usize::from(*a) + usize::from(*b), 3)),
        [0x81 | 0x82, ..] => Err(TlvFault::LengthCut),
        _ => Err(TlvFault::LengthForm),
    }
}

/// The head at the front of the bytes, which go to the end of the object around it. `depth` is the number of objects
/// around it.
#[tactic(auto, unfolding(crate::specs::Scan::head_at))]
pub(crate) fn head_of(bytes: &[u8], depth: u8) -> Result<Head, TlvFault>
    ensures gives { result ≡ head_at depth bytes.now }
    ensures within { IfOk result (λ h. h.size + h.len ≤ length bytes.now) }
    ensures shallow { IfOk result (λ h. h.constructed ≡ true → depth < 8) }
{
    let (tag, tag_size) = tag_of(bytes)?;
    let constructed = bytes[0] & 0x20 != 0;
    if constructed && depth >= 8 {
        return Err(TlvFault::TooDeep);
    }
    let (len, len_size) = length_of(&bytes[tag_size..])?;
    let size = tag_size + len_size;
    if bytes.len() - size < len {
        return Err(TlvFault::ValueCut);
    }
    Ok(Head {
        tag,
        constructed,
        size,
        len,
    })
}
