//! Words of the air interface.

/// How a frame is sent: seven bits of Type A, Type A without check bytes, Type A with CRC_A, Type B with CRC_B
/// (ISO/IEC 14443-3).
#[derive(Clone, Copy, Debug, PartialEq, Eq)]
pub enum Wave {
    /// Seven bits of Type A, the lowest of one byte, without check bytes.
    AShort,
    /// Type A without check bytes.
    ABare,
    /// Type A with CRC_A.
    A,
    /// Type B with CRC_B.
    B,
}

/// The two kinds of card (ISO/IEC 14443-3).
#[derive(Clone, Copy, Debug, PartialEq, Eq)]
pub enum CardKind {
    /// Type A, named by its UID.
    A,
    /// Type B, named by its PUPI.
    B,
}
