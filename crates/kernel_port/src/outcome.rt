//! What a kernel decides in the end.

use ep_base::{Message, OutcomeKind};

/// What a kernel decides, with its message if it has one (EMV Book A).
#[derive(Clone, Copy, Debug, PartialEq, Eq)]
pub struct Outcome {
    /// What follows.
    pub kind: OutcomeKind,
    /// What the holder of the card is told.
    pub message: Option<Message>,
}
