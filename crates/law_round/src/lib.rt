//! Laws of poll rounds and of the field, each the contract of a function that does nothing: whatever becomes of the
//! frames, a round that ends with a card leaves this card alone in the block protocol.
//!
//! Rounds, cards, fates and the field are defined in `ep_base`; `specs/` states the laws.
#![tactic(auto)]

ghost use Rattle.law_round.specs.Acting.{FieldActs, OpensWire, OthersStay};
ghost use Rattle.law_round.specs.Alone.{OneCardA, OneCardB};
ghost use Rattle.law_round.specs.Ending.{AlwaysPlays, EndsInEleven};
ghost use Rattle.ep_base.specs.Cards.Lawful.{BeginsLawful, StaysLawful};
ghost use Rattle.law_round.specs.Linked.{KeepsCards, LinksOne};
ghost use Rattle.law_round.specs.Once.{ClosesQuietly, LeavesOthers, OnceInField, StaysReady};
ghost use Rattle.law_round.specs.Polled.{PollsQuietly, PollsReady};

/// A field of a document's cards is lawful, and stays so in each reset and each exchange, whatever the frame.
///
/// Lawful: UIDs and PUPIs have their form, no two cards of one kind have the same one, the images are within a document's
/// limits, and bursts have at most sixteen bits.
pub fn stays_lawful()
    ensures begins { BeginsLawful }
    ensures stays { StaysLawful }
{}

/// When a round over a lawful field ends with a card, this card is present and in the block protocol, with a fresh link
/// of the reader's frame size; all others are outside the block protocol; and the cards haven't left.
pub fn links_one()
    ensures { LinksOne }
{}

/// A round over a lawful field ends. Nothing is executed in it, and of each card the plan and the image stay, in which no
/// application is selected.
pub fn keeps_cards()
    ensures { KeepsCards }
{}

/// Polling over a lawful field never fails, executes nothing, and leaves plans and images as they are, but for the
/// selected applications. Where it ends with a card, its last round does, and the link with this card is ready for a
/// command if the log has two free records.
pub fn polls_quietly()
    ensures quiet { PollsQuietly }
    ensures ready { PollsReady }
{}

/// A field with an open link is the wire of that link: after a round over a lawful field that ends with a card, the link
/// is open, its wire is as a command needs it, and both ends are at rest; and while it is open, the field carries each
/// block of the link as the wire does, whatever becomes of the frames, and the other cards stay as they are.
///
/// The log has two free records.
pub fn field_acts()
    ensures opens { OpensWire }
    ensures acts { FieldActs }
    ensures others { OthersStay }
{}

/// A round has at most eleven exchanges: whatever is heard, it is over after eleven answers. Over every field there is a
/// round.
pub fn exchanges()
    ensures most { EndsInEleven }
    ensures always { AlwaysPlays }
{}

/// A round in which a card of Type A that follows ISO/IEC 14443-4 is alone ends with this card.
///
/// `fsdi` is below 16, every frame passes, and the log has a free record.
pub fn one_card_a()
    ensures { OneCardA }
{}

/// A round in which a card of Type B that follows ISO/IEC 14443-4 is alone ends with this card, as one of Type A does.
pub fn one_card_b()
    ensures { OneCardB }
{}

/// Whatever becomes of the frames, a command over an open link of a field is executed once by the linked card, or at most
/// once where the link is spent; and the link stays open. The field stays lawful, and the other cards are as they were, up
/// to their presence. After an answer the link is ready for another command, where the log has two free records then.
///
/// The link is between two commands, and its wire is as a command needs it.
pub fn once_in_field()
    ensures once { OnceInField }
    ensures others { LeavesOthers }
    ensures ready { StaysReady }
{}

/// Whatever becomes of its frame, S(DESELECT) over an open link of a field executes nothing, and leaves the linked card's
/// image as it is.
pub fn closes_quietly()
    ensures { ClosesQuietly }
{}
