//! What the block that is due goes by.

/// What was heard last since the toggle, as far as the next block goes by it.
#[derive(Clone, Copy, Debug, PartialEq, Eq)]
pub(crate) enum Latest {
    /// Nothing, or an R(ACK) after which the block is sent again.
    Plain,
    /// A bad hearing.
    Lost,
    /// An S(WTX) with this WTXM.
    Waits(u8),
}
