//! The list of the cards that are present.
ghost use Rattle.std.specs.Prelude.{◌≡◌, ◌+◌, ◌≤◌, length, IfOk};
ghost use Rattle.toml.specs.View.{view, items_view};
ghost use Rattle.rf_field.specs.Presences.{lists_of};
ghost use Rattle.doc_table.specs.Read.{Gives, GivesIfRoom, all_items, each, integer_in};
ghost use Rattle.doc_table.specs.Section.{place};
ghost use Rattle.fate_table.specs.Presence.{ArePresences, is_number_list, presence_at};

use doc_table::{
    DocFault, DocKind, ElementKind, Path, Read, Section, TableEnd, all_of, counted, each,
    integer_in, items_of_kind,
};
use ep_base::{Buf, ROUNDS};
use std::alloc::Global;
use toml::Value;

/// Which cards are present in each round: the key `presence` of the table of a transaction with so many cards, at most
/// 4, whose section this is. The numbers of cards count from 1, and an absent key is an empty list.
///
/// Errors: the first fault of the key, and `NoMemory`.
pub fn presence_of(alloc: Global, section: &Section, cards: usize) -> Result<Vec<Buf<4>>, TableEnd>
    requires room { length section.now.path.now + 55 ≤ 96 }
    requires few { cards ≤ 4 }
    ensures value { GivesIfRoom (λ v. lists_of v.items) result (presence_at cards (place section.now)) }
    ensures limits { IfOk result (λ v. ArePresences cards (lists_of v.items)) }
{
    let lists = PresenceLists { cards: cards as u8 };
    section.defaulted(alloc, "presence", &lists, Vec::new(alloc))
}

// Reads the lists of all rounds.
#[derive(Clone, Copy, Debug)]
struct PresenceLists {
    cards: u8,
}

impl Read for PresenceLists {
    ghost use Rattle.std.specs.Prelude.{ℕ, List};
    ghost use Rattle.rf_field.specs.Presences.{lists_of};
    ghost use Rattle.fate_table.specs.Presence.{presence};

    type Out = Vec<Buf<4>>;

    ghost Meaning = { List (List ℕ) };

    ghost seen = { λ v. lists_of v.items };

    ghost reads = { λ p. presence p.cards };

    ghost room = { 14 };

    fn read(&self, alloc: Global, path: &Path, value: &Value) -> Result<Vec<Buf<4>>, TableEnd> {
        match value.as_array() {
            None => Err(TableEnd::Fault(path.fault(DocKind::WrongKind, 0))),
            Some(array) => {
                if !are_number_lists(array) {
                    return Err(TableEnd::Fault(path.fault(DocKind::WrongKind, 0)));
                }
                let few = counted(path, array, 0, ROUNDS)?;
                each(alloc, path, few, &PresentCards { cards: self.cards })
            }
        }
    }
}

// Whether all are arrays of integers.
fn are_number_lists(values: &[Value]) -> bool
    ensures { result ≡ all_items is_number_list (items_view values.now) }
{
    for value in values {
        if !is_number_list(value) {
            return false;
        }
    }
    true
}

// Whether a value is an array of integers.
fn is_number_list(value: &Value) -> bool
    ensures { result ≡ is_number_list (view value.now) }
{
    match value.as_array() {
        None => false,
        Some(array) => all_of(ElementKind::Integer, array),
    }
}

// Reads the list of one round.
#[derive(Clone, Copy, Debug)]
struct PresentCards {
    cards: u8,
}

impl Read for PresentCards {
    ghost use Rattle.std.specs.Prelude.{ℕ, List};
    ghost use Rattle.fate_table.specs.Presence.{present};

    type Out = Buf<4>;

    ghost Meaning = { List ℕ };

    ghost seen = { λ b. b.items };

    ghost reads = { λ p. present p.cards };

    ghost room = { 7 };

    fn read(&self, _alloc: Global, path: &Path, value: &Value) -> Result<Buf<4>, TableEnd> {
        let values = items_of_kind(path, value, ElementKind::Integer, 0, 4)?;
        Ok(card_numbers(path, values, self.cards)?)
    }
}

// The numbers of cards, of which there are so many.
fn card_numbers(path: &Path, values: &[Value], cards: u8) -> Result<Buf<4>, DocFault>
    requires few { length values.now ≤ 4 }
    requires room { length path.now + 7 ≤ 96 }
    ensures { Gives (λ b. b.items) result (each (integer_in 1 cards) path.now 1 (items_view values.now)) }
{
    let mut numbers = Buf::new();
    for (i, value) in values.iter().enumerate() {
        let number = integer_in(&path.element(i + 1), value, 1, u64::from(cards))?;
        numbers.push(number as u8);
    }
    Ok(numbers)
}
