//! The tables of a transaction's cards: what they are on the air, and what they answer.
#![tactic(auto)]

mod app;
mod card;
mod cards;
mod codes;
mod identifier;
mod plans;
mod type_plan;

pub use card::Card;
pub use card_image::{App, Rule};
pub use cards::cards_of;
pub use plans::plans_of;
pub use type_plan::TypePlan;
