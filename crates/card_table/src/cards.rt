//! The cards of a transaction.
ghost use Rattle.std.specs.Prelude.{◌≡◌, ◌+◌, ◌≤◌, [], length, position, IfOk, IfSome};
ghost use Rattle.std.specs.Prelude.{◌<◌};
ghost use Rattle.ep_base.specs.Cards.Lawful.{ArePlaced, AreApart, names};
ghost use Rattle.ep_base.specs.Cards.Numbers.{AreDistinct, numbers};
ghost use Rattle.doc_table.specs.Read.{GivesIfRoom};
ghost use Rattle.doc_table.specs.Path.{key_path, shown};
ghost use Rattle.doc_table.specs.Section.{place};
ghost use Rattle.card_table.specs.Cards.{all_new, is_same, id_key, cards_at};
ghost use Rattle.card_table.specs.Placing.{placed_from};

use crate::card::{Card, CardTable};
use crate::type_plan::TypePlan;
use doc_table::{DocFault, DocKind, ListOf, Path, Read, Section, TableEnd};
use ep_base::CARDS;
use std::alloc::Global;
use toml::Value;

/// The cards that the key `cards` of a transaction's table lists, at most four, no two of one kind with the same UID or
/// PUPI. They are numbered from 1 in their order.
///
/// Errors: `Fault` with the first fault of this key, and `NoMemory`, which may come for every table.
pub fn cards_of(alloc: Global, section: &Section) -> Result<Vec<Card>, TableEnd>
    requires { length section.now.path.now + 55 ≤ 96 }
    ensures value { GivesIfRoom (λ v. v.items) result (cards_at (place section.now)) }
    ensures few { IfOk result (λ v. length v.items ≤ CARDS) }
    ensures placed { IfOk result (λ v. ArePlaced (placed_from 1 v.items)) }
    ensures apart { IfOk result (λ v. AreApart (names (placed_from 1 v.items))) }
    ensures distinct { IfOk result (λ v. AreDistinct (numbers (placed_from 1 v.items))) }
{
    section.defaulted(alloc, "cards", &CardList, Vec::new(alloc))
}

// Reads an array of cards.
#[derive(Clone, Copy, Debug)]
struct CardList;

impl Read for CardList {
    ghost use Rattle.std.specs.Prelude.{List};
    ghost use Rattle.card_table.specs.Cards.{Card as CardData, card_list};

    type Out = Vec<Card>;

    ghost Meaning = { List CardData };

    ghost seen = { λ v. v.items };

    ghost reads = { λ _. card_list };

    ghost room = { 49 };

    fn read(&self, alloc: Global, path: &Path, value: &Value) -> Result<Vec<Card>, TableEnd> {
        let cards = ListOf::tables(0, CARDS, CardTable).read(alloc, path, value)?;
        all_new(path, &cards)?;
        Ok(cards)
    }
}

// None of these cards is of the kind of an earlier one and has its identifier.
fn all_new(path: &Path, cards: &[Card]) -> Result<(), DocFault>
    requires room { length path.now + 49 ≤ 96 }
    requires few { length cards.now ≤ 4 }
    ensures { result ≡ all_new path.now [] cards.now }
{
    for (i, card) in cards.iter().enumerate() {
        if let Some(earlier) = place_of(card, &cards[..i]) {
            let place = path.element(i + 1).key(card.id_key());
            return Err(place.fault(DocKind::Conflict, earlier as i64 + 1));
        }
    }
    Ok(())
}

// The place of the first of these cards that is the same.
fn place_of(card: &Card, cards: &[Card]) -> Option<usize>
    ensures { result ≡ position (is_same card.now) cards.now }
{
    cards.iter().position(|other| card.is_same(other))
}

impl Card {
    // Whether both are of one kind and have one identifier.
    fn is_same(&self, other: &Card) -> bool
        ensures { result ≡ is_same self.now other.now }
    {
        match (&self.plan, &other.plan) {
            (TypePlan::A(plan), TypePlan::A(theirs)) => {
                plan.uid.as_slice() == theirs.uid.as_slice()
            }
            (TypePlan::B(plan), TypePlan::B(theirs)) => plan.pupi == theirs.pupi,
            _ => false,
        }
    }

    // The key of the identifier.
    fn id_key(&self) -> &'static str
        ensures key { result.now ≡ id_key self.now.outside }
        ensures short { length result.now ≤ 4 }
    {
        match self.plan {
            TypePlan::A(_) => "uid",
            TypePlan::B(_) => "pupi",
        }
    }
}
