//! A field of Type A cards without faults.
ghost use Rattle.std.specs.Prelude.{◌≡◌, ◌≤◌, ◌<◌, ℕ, List, [], ◌∷◌, ◌++◌, map, length, Some, IfSome, All, is_ok, if◌then◌else◌, Option, IsErr, IfOk, IsOk};
ghost use Rattle.ep_base.specs.Streams.Causes.{HasCause};
ghost use Rattle.ep_base.specs.Cards.TypeA.{bcc as bcc_of, levels as levels_of, level_bytes};
ghost use Rattle.inventory.specs.Bits.{known_bits};
ghost use Rattle.inventory.specs.CardView.{HasLevels, TagFits};
ghost use Rattle.inventory.specs.Hearing.{hears_value, listed, AgreeAs};
ghost use Rattle.inventory.specs.Steps.{answer_of, one_more};
ghost use Rattle.inventory.specs.Tags.{AreTags};
ghost use Rattle.inventory.specs.Told as told;
ghost use Rattle.inventory.specs.Told.{Stood, clean, heard_values, IsHeard, selects_one, selected_sak, placed};

use crate::bits::{agreement, bcc, begins};
use crate::field::{BitField, BitHeard, Prefix};
use crate::tag::Tag;
use ep_base::{Buf, NoMemory};
use rf_frame::RfFailed;
use std::alloc::Global;
use std::marker::Model;

// Where a card stands.
#[derive(Clone, Copy, Debug, PartialEq, Eq)]
enum Place {
    // It doesn't answer until it is woken.
    Mute,
    // It answers at this level of its UID.
    At(u8),
    // All levels of its UID were selected.
    Whole,
}

// A card, and where it stands.
#[derive(Drop)]
struct Card {
    tag: Tag,
    place: Place,
}

// How many levels a UID has.
fn levels(uid: &Buf<10>) -> u8
    requires { HasLevels uid.now.items }
    ensures { result ≡ levels_of uid.now.items }
{
    (uid.len() / 3) as u8
}

// The value of a UID at one of its levels.
fn value_at(uid: &Buf<10>, level: u8) -> [u8; 4]
    requires uid { HasLevels uid.now.items }
    requires level { (1 ≤ level) × (level ≤ levels_of uid.now.items) }
    ensures { result ≡ level_bytes uid.now.items level }
{
    let bytes = uid.as_slice();
    let from = 3 * (usize::from(level) - 1);
    if level == levels(uid) {
        [
            bytes[from],
            bytes[from + 1],
            bytes[from + 2],
            bytes[from + 3],
        ]
    } else {
        [0x88, bytes[from], bytes[from + 1], bytes[from + 2]]
    }
}

impl Model for Card {
    ghost use Rattle.inventory.specs.CardView.{card_of, CardFits};
    ghost use Rattle.inventory.specs.Told.{Stood};

    ghost Value = { Stood };

    ghost view = { card_of };

    ghost invariant = { CardFits };
}

impl Card {
    // Its value, where it stands at this level and the value begins with these bits.
    fn hears(&self, level: u8, known: &Prefix) -> Option<[u8; 4]>
        requires { known.now.bits ≤ 32 }
        ensures { result ≡ hears_value level (known_bits known.now) self.now }
    {
        if self.place != Place::At(level) {
            return None;
        }
        let value = value_at(&self.tag.uid, level);
        if begins(&value, known) {
            Some(value)
        } else {
            None
        }
    }

    // It is woken, or muted.
    fn stand(&mut self, awake: bool)
        ensures { self.new ≡ record { tag = self.old.tag; place = (if awake then told.At 1 else told.Mute) } }
    {
        self.place = if awake { Place::At(1) } else { Place::Mute };
    }

    // What it answers to the selection of a value at a level.
    fn select(&mut self, level: u8, value: &[u8; 4]) -> Option<u8>
        ensures card { self.new ≡ selects_one level value.now self.old }
        ensures sak { result ≡ selected_sak level value.now self.old }
    {
        if self.place != Place::At(level) {
            return None;
        }
        if value_at(&self.tag.uid, level) != *value {
            self.place = Place::Mute;
            return None;
        }
        if level < levels(&self.tag.uid) {
            self.place = Place::At(level + 1);
            return Some(0x04);
        }
        self.place = Place::Whole;
        Some(self.tag.sak)
    }
}

// A level's answer: its value and BCC.
fn level_part(value: &[u8; 4]) -> [u8; 5]
    ensures { result ≡ value.now ++ bcc_of value.now ∷ [] }
{
    [value[0], value[1], value[2], value[3], bcc(value)]
}

/// A field of Type A cards that answer as they should. It tells its cards and where each stands, and never fails.
#[derive(Drop)]
pub struct CleanField {
    cards: Vec<Card>,
    exchanges: u64,
}

impl CleanField {
    /// A field of these cards, at most 16, with different lawful UIDs and SAKs without bit 04h. None answers before `wake`.
    ///
    /// Errors: `NoMemory`.
    pub fn open(alloc: Global, tags: Vec<Tag>) -> Result<CleanField, NoMemory>
        requires count { length tags.items ≤ 16 }
        requires tags { AreTags tags.items }
        ensures cards { IfOk result (λ f. f.cards.items ≡ map (λ t. record { tag = t; place = told.Mute }) tags.items) }
        ensures exchanges { IfOk result (λ f. f.exchanges ≡ 0) }
    {
        Ok(CleanField {
            cards: all_mute(alloc, tags)?,
            exchanges: 0,
        })
    }

    // One exchange more.
    fn count(&mut self)
        ensures count { self.new.exchanges ≡ one_more self.old.exchanges }
        ensures cards { self.new.cards ≡ self.old.cards }
    {
        self.exchanges = self.exchanges.saturating_add(1);
    }
}

// These cards, before they are woken.
fn all_mute(alloc: Global, tags: Vec<Tag>) -> Result<Vec<Card>, NoMemory>
    requires { All TagFits tags.items }
    ensures { IfOk result (λ v. v.items ≡ map (λ t. record { tag = t; place = told.Mute }) tags.items) }
{
    let mut cards = Vec::new(alloc);
    for tag in tags {
        let card = Card {
            tag,
            place: Place::Mute,
        };
        if cards.push(card).is_err() {
            return Err(NoMemory);
        }
    }
    Ok(cards)
}

// All cards are woken, or muted.
fn stand_all(cards: &mut [Card], awake: bool)
    ensures { cards.new ≡ placed (if awake then told.At 1 else told.Mute) cards.old }
{
    for card in cards.iter_mut() {
        card.stand(awake);
    }
}

// The cards at a level with this value go on; what the first of them answers.
fn select_all(cards: &mut [Card], level: u8, value: &[u8; 4]) -> Option<u8>
    ensures cards { cards.new ≡ map (selects_one level value.now) cards.old }
    ensures sak { result ≡ told.answered_sak level value.now cards.old }
{
    let mut sak = None;
    for card in cards.iter_mut() {
        sak = sak.or(card.select(level, value));
    }
    sak
}

// What is heard of cards that agree in so many first bits of this value.
fn heard_of(heard: Option<Prefix>) -> BitHeard
    ensures { (values : List (List ℕ)) → AgreeAs values heard → IsHeard values result }
{
    match heard {
        None => BitHeard::Silence,
        Some(common) => {
            let value = common.bytes;
            if common.bits == 32 {
                BitHeard::Level(level_part(&value))
            } else {
                BitHeard::Split {
                    agreed: value,
                    at: common.bits,
                }
            }
        }
    }
}

// The first value, and in how many of its first bits all agree, with one value more if there is one.
fn heard_next(heard: Option<Prefix>, value: Option<[u8; 4]>) -> Option<Prefix>
    requires { IfSome heard (λ p. p.bits ≤ 32) }
    ensures { (values : List (List ℕ)) → AgreeAs values heard → AgreeAs (values ++ listed value) result }
{
    match value {
        None => heard,
        Some(value) => Some(agreed_with(heard, &value)),
    }
}

// The first value, and in how many of its first bits all agree, with this value too.
fn agreed_with(heard: Option<Prefix>, value: &[u8; 4]) -> Prefix
    requires { IfSome heard (λ p. p.bits ≤ 32) }
    ensures { (values : List (List ℕ)) → AgreeAs values heard → AgreeAs (values ++ value.now ∷ []) (Some result) }
{
    match heard {
        None => Prefix {
            bytes: *value,
            bits: 32,
        },
        Some(common) => {
            let first = common.bytes;
            Prefix {
                bytes: first,
                bits: agreement(&first, value, common.bits),
            }
        }
    }
}

// The first value that is heard, and in how many of its first bits all agree.
fn agreed(cards: &[Card], level: u8, known: &Prefix) -> Option<Prefix>
    requires { known.now.bits ≤ 32 }
    ensures { AgreeAs (heard_values level (known_bits known.now) cards.now) result }
{
    let mut heard = None;
    for card in cards {
        heard = heard_next(heard, card.hears(level, known));
    }
    heard
}

impl BitField for CleanField {
    ghost use Rattle.std.specs.Prelude.{ℕ, List};
    ghost use Rattle.inventory.specs.Told.{Stood, clean};

    ghost State = { List Stood };

    ghost state = { λ f. f.cards.items };

    ghost steps = { clean };

    ghost exchanges = { λ f. f.exchanges };

    ghost faults = { λ f. 0 };

    /// No card answers until `wake`. There is no error.
    fn reset(&mut self) -> Result<(), RfFailed>
        ensures step { clean.resets self.old.cards.items (is_ok result) self.new.cards.items }
        ensures count { self.new.exchanges ≡ self.old.exchanges }
        ensures cause { HasCause 0 0 (IsErr result) }
        ensures always { IsOk result }
    {
        stand_all(&mut self.cards, false);
        Ok(())
    }

    /// Puts all cards at level 1, and says whether there is one. There is no error.
    fn wake(&mut self) -> Result<bool, RfFailed>
        ensures step { clean.wakes self.old.cards.items (answer_of result) self.new.cards.items }
        ensures count { self.new.exchanges ≡ one_more self.old.exchanges }
        ensures cause { HasCause 0 0 (IsErr result) }
        ensures always { IsOk result }
    {
        self.count();
        stand_all(&mut self.cards, true);
        Ok(!self.cards.is_empty())
    }

    /// Asks the cards at this level whose value begins with these bits. There is no error.
    fn ask(&mut self, level: u8, known: &Prefix) -> Result<BitHeard, RfFailed>
        requires { known.now.bits ≤ 32 }
        ensures step { clean.asks self.old.cards.items level known.now (answer_of result) self.new.cards.items }
        ensures count { self.new.exchanges ≡ one_more self.old.exchanges }
        ensures cause { HasCause 0 0 (IsErr result) }
        ensures always { IsOk result }
    {
        self.count();
        Ok(heard_of(agreed(&self.cards, level, known)))
    }

    /// Moves the cards at this level that have this value on, and gives their SAK. There is no error.
    fn select(&mut self, level: u8, value: &[u8; 4]) -> Result<Option<u8>, RfFailed>
        ensures step { clean.selects self.old.cards.items level value.now (answer_of result) self.new.cards.items }
        ensures count { self.new.exchanges ≡ one_more self.old.exchanges }
        ensures cause { HasCause 0 0 (IsErr result) }
        ensures always { IsOk result }
    {
        self.count();
        Ok(select_all(&mut self.cards, level, value))
    }
}
