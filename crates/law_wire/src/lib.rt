//! Laws of a wire of frames between a reader and one card, each the contract of a function that does nothing:
//! whatever becomes of the frames, a block comes whole or not at all, and a command is executed once.
//!
//! Frames, bursts, the wire and what a command comes to are defined in `ep_base`; `specs/` states the other laws.
#![tactic(auto)]

ghost use Rattle.ep_base.specs.Link.Carry.{CarriedOnce};
ghost use Rattle.law_wire.specs.Alike.{CarriedAlike};
ghost use Rattle.law_wire.specs.Whole.{ClosesQuietly, HeardWhole, NothingIsBad, ReadAsSpelled, TakenWhole};

use rf_frame::Medium;

/// The bytes of a block are read as that block.
pub fn blocks_are_read()
    ensures { ReadAsSpelled }
{}

/// Whatever becomes of a frame, the card takes the block that the reader sent, or nothing; and the reader hears the
/// block that the card sent, or a bad hearing. Where no card answers, the hearing is bad.
///
/// Bursts have at most sixteen bits, and the card's frame isn't longer than the reader's frames.
pub fn blocks_come_whole()
    ensures down { TakenWhole }
    ensures up { HeardWhole }
    ensures nothing { NothingIsBad }
{}

/// Whatever becomes of the S(DESELECT) that closes a link, nothing is executed.
pub fn closes_quietly()
    ensures { ClosesQuietly }
{}

/// Whatever becomes of the frames of an open link, a command is answered with its card's response and was executed
/// once; or three hearings were bad since the reader's last toggle, and it was executed at most once. At every moment
/// before its end it was executed at most once. No block is ever outside the rules.
///
/// The card is an image within a document's limits, bursts have at most sixteen bits, frames have at least 16 bytes
/// and the reader's at most `FRAME`, the log has two free records, and the link is between two commands.
pub fn carried_once()
    ensures { CarriedOnce }
{}

/// The same over any medium that carries the link's blocks as a wire does, which its good states show, and stays good.
pub fn carried_alike<M: Medium>()
    ensures { CarriedAlike M.steps }
{}
