//! What a card is outside the block protocol.

use type_a::APlan;
use type_b::BPlan;

/// What a card is outside the block protocol, by its type.
#[derive(Drop)]
pub enum TypePlan {
    /// A card of Type A.
    A(APlan),
    /// A card of Type B.
    B(BPlan),
}
