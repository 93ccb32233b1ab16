//! A card's side outside the block protocol.
ghost use Rattle.std.specs.Prelude.{◌≡◌};
ghost use Rattle.ep_base.specs.Cards.Field.{outside_after, outside_reply, outside_reset, outside_halted};
ghost use Rattle.rf_frame.specs.Meaning.{reply_of};
ghost use Rattle.std.specs.Option.{option_map};
ghost use Rattle.rf_field.specs.Outsides.{outside_of};
ghost use Rattle.rf_field.specs.Plans.{plan_outside};

use ep_base::{FrameBuf, Wave};
use rf_frame::{CardDoes, Sent};
use type_a::{ACard, APlan};
use type_b::BCard;

// A card of either type, outside the block protocol.
#[derive(Drop)]
pub(crate) enum Outside {
    A(ACard),
    B(BCard),
}

impl Outside {
    // The plan of a card of Type A.
    pub(crate) fn plan(&self) -> Option<&APlan>
        ensures { option_map (λ p. p.now) result ≡ plan_outside (outside_of self.now) }
    {
        match self {
            Outside::A(card) => Some(card.plan()),
            Outside::B(_) => None,
        }
    }

    // What the card does with a frame; what it sends is written. In the block protocol it passes on the frames of its own
    // wave.
    pub(crate) fn hear(&mut self, wave: Wave, frame: &FrameBuf, sent: &mut Sent) -> CardDoes
        ensures after { outside_of self.new ≡ outside_after wave frame.now.items (outside_of self.old) }
        ensures reply { reply_of result sent.new ≡ outside_reply wave frame.now.items (outside_of self.old) }
    {
        match self {
            Outside::A(card) => card.hear_into(wave, frame, sent),
            Outside::B(card) => card.hear_into(wave, frame, sent),
        }
    }

    // The field was reset.
    pub(crate) fn reset(&mut self)
        ensures { outside_of self.new ≡ outside_reset (outside_of self.old) }
    {
        match self {
            Outside::A(card) => card.reset(),
            Outside::B(card) => card.reset(),
        }
    }

    // The block protocol ended by S(DESELECT).
    pub(crate) fn halt(&mut self)
        ensures { outside_of self.new ≡ outside_halted (outside_of self.old) }
    {
        match self {
            Outside::A(card) => card.halt(),
            Outside::B(card) => card.halt(),
        }
    }
}
