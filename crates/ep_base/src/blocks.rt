//! Words of the block protocol.

/// Why bytes are no block (ISO/IEC 14443-4; the order of the causes is this project's profile).
#[derive(Clone, Copy, Debug, PartialEq, Eq)]
pub enum BlockFault {
    /// There is no byte.
    Empty,
    /// The PCB is none of the protocol's.
    BadPcb,
    /// The PCB announces a CID.
    Cid,
    /// The PCB announces a NAD.
    Nad,
    /// Bytes follow where none may, or an S(WTX) hasn't exactly one more.
    BadInf,
    /// The WTXM of an S(WTX) is 0 or above 59.
    BadWtxm,
}

/// What a reader's end of a link does while a command is open.
#[derive(Clone, Copy, Debug, PartialEq, Eq)]
pub enum Phase {
    /// It sends a command, and no part of the response has come.
    Sending,
    /// A part of the response has come.
    Receiving,
}
