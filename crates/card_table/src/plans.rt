//! Cards as the plans of a field.
ghost use Rattle.std.specs.Prelude.{◌≡◌, ◌<◌, ◌^◌, length, map, All, IfOk};
ghost use Rattle.rf_field.specs.Plans.{PlanFits, placed_plan};
ghost use Rattle.card_table.specs.Placing.{placed, placed_from};

use crate::card::Card;
use crate::type_plan::TypePlan;
use card_image::CardImage;
use ep_base::NoMemory;
use rf_field::CardPlan;
use std::alloc::Global;

/// The plans of a field with these cards, numbered from 1. There are fewer than 256.
///
/// Errors: `NoMemory`.
pub fn plans_of(alloc: Global, cards: Vec<Card>) -> Result<Vec<CardPlan>, NoMemory>
    requires { length cards.items < 2 ^ 8 }
    ensures plans { IfOk result (λ v. map placed_plan v.items ≡ placed_from 1 cards.items) }
    ensures fits { IfOk result (λ v. All PlanFits v.items) }
{
    let mut plans = Vec::new(alloc);
    for card in cards {
        let number = plans.len() + 1;
        if plans.push(plan_of(alloc, number as u8, card)?).is_err() {
            return Err(NoMemory);
        }
    }
    Ok(plans)
}

// The plan of the card with this number.
fn plan_of(alloc: Global, number: u8, card: Card) -> Result<CardPlan, NoMemory>
    ensures plan { IfOk result (λ p. placed_plan p ≡ placed number card) }
    ensures fits { IfOk result PlanFits }
{
    let image = CardImage::open(alloc, number, card.ppse, card.apps)?;
    match card.plan {
        TypePlan::A(plan) => Ok(CardPlan::A(plan, image)),
        TypePlan::B(plan) => Ok(CardPlan::B(plan, image)),
    }
}
