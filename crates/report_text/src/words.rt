//! The words that lines have for what the rules decide.
ghost use Rattle.std.specs.Prelude.{◌≡◌, ◌≤◌, length};
ghost use Rattle.ep_claim.specs.Text.ReportLine.{card_word, kind_word, message_row};

use ep_base::{CardKind, Message, OutcomeKind};

/// The word of an outcome.
pub fn kind_word(kind: OutcomeKind) -> &'static str
    ensures word { result.now ≡ kind_word kind }
    ensures most { length result.now ≤ 11 }
{
    match kind {
        OutcomeKind::SelectNext => "select-next",
        OutcomeKind::TryAgain => "try-again",
        OutcomeKind::Approved => "approved",
        OutcomeKind::Declined => "declined",
        OutcomeKind::OnlineRequest => "online",
        OutcomeKind::TryAnother => "try-another",
        OutcomeKind::EndApplication => "end",
    }
}

/// The identifier of a message (EMV Book A).
pub fn identifier(message: Message) -> u8
    ensures { result ≡ (message_row message).identifier }
{
    match message {
        Message::Approved => 0x03,
        Message::NotAuthorised => 0x07,
        Message::PresentCard => 0x15,
        Message::Processing => 0x16,
        Message::ReadOk => 0x17,
        Message::InsertOrSwipe => 0x18,
        Message::OneCardOnly => 0x19,
        Message::TryAnotherCard => 0x1c,
        Message::PresentAgain => 0x21,
    }
}

/// The words that are printed beside a message's identifier.
pub fn message_words(message: Message) -> &'static str
    ensures words { result.now ≡ (message_row message).words }
    ensures most { length result.now ≤ 33 }
{
    match message {
        Message::Approved => "Approved",
        Message::NotAuthorised => "Not authorised",
        Message::PresentCard => "Present card",
        Message::Processing => "Processing",
        Message::ReadOk => "Card read OK",
        Message::InsertOrSwipe => "Please insert or swipe card",
        Message::OneCardOnly => "Please present one card only",
        Message::TryAnotherCard => "Insert, swipe or try another card",
        Message::PresentAgain => "Present card again",
    }
}

/// The letter of a kind of card.
pub fn card_word(kind: CardKind) -> &'static str
    ensures word { result.now ≡ card_word kind }
    ensures most { length result.now ≤ 1 }
{
    match kind {
        CardKind::A => "A",
        CardKind::B => "B",
    }
}
