//! Words of Entry Point: what a kernel decides and which message is given (EMV Book A and Book B).

/// What a kernel decides.
#[derive(Clone, Copy, Debug, PartialEq, Eq)]
pub enum OutcomeKind {
    /// The next candidate of the same list is tried.
    SelectNext,
    /// The card is presented once more.
    TryAgain,
    /// The purchase is approved.
    Approved,
    /// The purchase is declined.
    Declined,
    /// The issuer is asked.
    OnlineRequest,
    /// Another interface is to be used.
    TryAnother,
    /// The application ends.
    EndApplication,
}

/// A message to the holder of the card. Its identifier has two hexadecimal digits.
#[derive(Clone, Copy, Debug, PartialEq, Eq)]
pub enum Message {
    /// Identifier 03.
    Approved,
    /// Identifier 07.
    NotAuthorised,
    /// Identifier 15.
    PresentCard,
    /// Identifier 16.
    Processing,
    /// Identifier 17.
    ReadOk,
    /// Identifier 18.
    InsertOrSwipe,
    /// Identifier 19.
    OneCardOnly,
    /// Identifier 1C.
    TryAnotherCard,
    /// Identifier 21.
    PresentAgain,
}
