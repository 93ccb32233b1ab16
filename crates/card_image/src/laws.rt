//! What holds of every image, whatever it is asked.
ghost use Rattle.std.specs.Prelude.{ℕ, List};
ghost use Rattle.ep_base.specs.Cards.CardAnswer.{Image, IsImage, IsAnswer, card_answer, deselected};

/// An image within its limits answers each command within the limits, and stays within its own.
pub fn stays_within_limits()
    ensures answers { (i : Image) (command : List ℕ) → IsImage i → IsAnswer (card_answer i command).0 }
    ensures stays { (i : Image) (command : List ℕ) → IsImage i → IsImage (card_answer i command).1 }
    ensures deselects { (i : Image) → IsImage i → IsImage (deselected i) }
{}
