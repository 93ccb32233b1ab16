//! Blocks.

/// A block of the protocol (ISO/IEC 14443-4).
#[derive(Clone, Copy, Debug, PartialEq, Eq)]
pub enum Block<'b> {
    /// An I-block: a part of a command or of a response.
    I {
        /// Its block number, 0 or 1.
        number: u8,
        /// Whether more parts follow.
        chained: bool,
        /// The part, of at most 253 bytes.
        inf: &'b [u8],
    },
    /// An R(ACK).
    RAck {
        /// Its block number, 0 or 1.
        number: u8,
    },
    /// An R(NAK).
    RNak {
        /// Its block number, 0 or 1.
        number: u8,
    },
    /// An S(DESELECT).
    Deselect,
    /// An S(WTX).
    Wtx {
        /// The power level indication, 0 to 3.
        power: u8,
        /// The multiplier of the frame waiting time, 1 to 59.
        wtxm: u8,
    },
}
