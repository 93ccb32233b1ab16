//! Words of BER-TLV.

/// Why bytes are no list of objects.
#[derive(Clone, Copy, Debug, PartialEq, Eq)]
pub enum TlvFault {
    /// The tag's bytes pass the end of the object around it.
    TagCut,
    /// The tag goes on with a fourth byte.
    TagLong,
    /// The length's bytes pass the end.
    LengthCut,
    /// The first length byte is 80h, or 83h or above.
    LengthForm,
    /// The value passes the end.
    ValueCut,
    /// A constructed object stands inside eight others.
    TooDeep,
}

/// One object: in how many others it stands, its tag, and where its value lies in the input.
#[derive(Clone, Copy, Debug, PartialEq, Eq)]
pub struct Node {
    /// How many objects it stands in.
    pub depth: u8,
    /// The number that the tag's bytes spell, the first byte highest.
    pub tag: u32,
    /// Whether its value is a list of objects.
    pub constructed: bool,
    /// The place of its value in the input, from 0.
    pub at: usize,
    /// The length of its value in bytes.
    pub len: usize,
}
