//! The words of a reader's end.

/// What a reader's end does.
#[derive(Clone, Copy, Debug, PartialEq, Eq)]
pub(crate) enum Stage {
    /// No command is open.
    Resting,
    /// A command is sent, and no part of the response has come.
    Sending,
    /// A part of the response has come, and more follow.
    Receiving,
    /// The link has failed.
    Failed,
    /// The link was closed.
    Closed,
}

/// What an open command asks.
#[derive(Clone, Copy, Debug, PartialEq, Eq)]
pub(crate) enum Question {
    /// The part of the command that is due.
    Part,
    /// The next part of the response.
    Ack,
    /// The last answer again.
    Nak,
    /// The time that the card wants, by its WTXM.
    Waiting(u8),
}

/// What a hearing leads to.
#[derive(Clone, Copy, Debug, PartialEq, Eq)]
pub(crate) enum Step {
    /// The next block, without a toggle.
    Again,
    /// The next block, after a toggle.
    Toggled,
    /// The response is whole.
    Done,
    /// The third bad hearing since the toggle.
    Spent,
    /// A block outside the rules.
    Breach,
}
