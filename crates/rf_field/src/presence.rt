//! Which cards are present in the rounds to come.
ghost use Rattle.std.specs.Prelude.{◌≡◌};
ghost use Rattle.ep_base.specs.Cards.Field.{is_present, has_number, next_presence};
ghost use Rattle.rf_field.specs.Presences.{lists_of};

use ep_base::Buf;
use std::marker::Model;

// The numbers of the cards that are present, for each round to come. The last list holds for all rounds after it, and
// without a list all cards are present.
#[derive(Drop)]
pub(crate) struct Presence {
    lists: Vec<Buf<4>>,
    // The place of the next round's list.
    at: usize,
}

impl Model for Presence {
    ghost use Rattle.std.specs.Prelude.{ℕ, ◌≤◌, List, drop, vec_len};
    ghost use Rattle.rf_field.specs.Presences.{lists_of};

    ghost Value = { List (List ℕ) };

    ghost view = { λ p. lists_of (drop p.at p.lists.items) };

    ghost invariant = { λ p. p.at ≤ vec_len p.lists };
}

impl Presence {
    // The presence that these lists say.
    pub(crate) fn of(lists: Vec<Buf<4>>) -> Presence
        ensures { result ≡ lists_of lists.items }
    {
        Presence { lists, at: 0 }
    }

    // Whether the card with this number is present in the next round: no card is once they are gone.
    pub(crate) fn has(&self, gone: bool, number: usize) -> bool
        ensures { result ≡ is_present gone self.now number }
    {
        if gone {
            return false;
        }
        match self.lists.get(self.at) {
            None => true,
            Some(list) => is_listed(list.as_slice(), number),
        }
    }

    // The next round began.
    pub(crate) fn advance(&mut self)
        ensures { self.new ≡ next_presence self.old }
    {
        if self.lists.len() - self.at > 1 {
            self.at += 1;
        }
    }
}

// Whether a number is in a list.
fn is_listed(list: &[u8], number: usize) -> bool
    ensures { result ≡ has_number number list.now }
{
    for listed in list {
        if usize::from(*listed) == number {
            return true;
        }
    }
    false
}
