//! Laws of one open link between the reader's end and a card's end, each the contract of a function that does
//! nothing: whatever frames are lost, a command is executed once, and no link stays open for ever.
//!
//! The ends of the link, its fates and its exchanges are defined in `ep_base`; `specs/` states the laws.
#![tactic(auto)]

ghost use Rattle.law_link.specs.Bounds.{BoundedToggles, CommandEnds, FewToggles, LinkEnds};
ghost use Rattle.law_link.specs.Once.{FewLosses, OneCommand};

/// Whatever frames are lost, a command is answered with its image's response and was executed once; or three
/// exchanges were bad since the reader's last toggle, and it was executed at most once. At every moment before its
/// end it was executed at most once. No block is ever outside the rules.
///
/// The image's commands have at most `COMMAND` bytes, its responses 2 to `RESPONSE`, and at most `ANSWER_WAITS` S(WTX) come
/// before one; frames have at least 16 bytes; the link is between two commands.
pub fn one_command()
    ensures { OneCommand }
{}

/// Whatever the reader hears, and from whatever card: at most `EXCHANGES` exchanges lead from one toggle of its block number
/// to the next; the link is spent exactly at the third bad hearing since the toggle; a command takes at most `TOGGLES`
/// toggles; and `COMMAND_EXCHANGES` exchanges always end it.
pub fn bounds()
    ensures between { BoundedToggles }
    ensures toggles { FewToggles }
    ensures ends { CommandEnds }
    ensures link { LinkEnds }
{}

/// Where at most two frames of a command are lost, and there are exchanges enough, it is answered.
pub fn few_losses()
    ensures { FewLosses }
{}
