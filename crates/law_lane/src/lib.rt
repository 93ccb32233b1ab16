//! Laws of a transaction that is taken up again at each exchange, each the contract of a function that does nothing.
//!
//! What such a transaction asks, and what it makes of each hearing, is defined in `ep_claim`; `specs/` states the laws.
#![tactic(auto)]

ghost use Rattle.law_lane.specs.Following.{EventsGrow, ExchangesAreMade};
ghost use Rattle.law_lane.specs.LaneLaw.{LanesEnd, LanesKeep};
ghost use Rattle.law_lane.specs.Lossless.{NoLoss};

/// A transaction over a new field of a document's cards comes to an end, whatever becomes of the frames and whichever
/// cards are present in each round, in at most as many exchanges as its talk takes. Its results are those of whole poll
/// rounds, commands and closings over the field, and it keeps to the perfect run for the ends of its rounds.
///
/// Heard to its end, its events are those of the perfect run, and the cards executed exactly the commands of that run,
/// each once and in order. Where a link fails, one wished command has no response: the events are those before it, and
/// the cards executed the commands before it, and perhaps this one. No link's rules are broken.
///
/// The field is lawful and no two cards have the same number; the talk sends commands alone, and these to a card that was
/// found and not closed; it closes no other card's presentation; and the empty log has room for more records than the
/// talk has commands.
pub fn lanes_end()
    ensures { LanesEnd }
{}

/// Such a transaction, after however many exchanges, never wishes a command or a closing without a card; where it asks
/// nothing it is over; and whenever it is over it keeps to the perfect run, as `lanes_end` says.
pub fn lanes_keep()
    ensures { LanesKeep }
{}

/// Where every frame passes, no link fails: the end to which such a transaction comes is whole, and so it is after
/// however many exchanges, whenever the transaction is over.
///
/// No fate is left but frames that pass; after the fates' end all frames pass. The field and the talk are as for
/// `lanes_end`.
pub fn no_loss()
    ensures { NoLoss }
{}

/// Whatever is heard next, the events that were said stay, and others may follow them: for every talk, and wherever it
/// stands.
pub fn events_grow()
    ensures { EventsGrow }
{}

/// The exchanges of a transaction are those that were made from its start on: each with what was asked then and what the
/// field answered, and together they lead to where the transaction stands, and to the field.
pub fn exchanges_are_made()
    ensures { ExchangesAreMade }
{}
