//! Clean fields, fields of many cards, and fields that answer what they should not.
ghost use Rattle.std.specs.Prelude.{◌≡◌, ◌≢◌, ◌≤◌, ◌<◌, true, false, All, length, IfOk};
ghost use Rattle.ep_base.specs.Cards.Lawful.{IsUid};
ghost use Rattle.ep_base.specs.Streams.Causes.{HasCause};
ghost use Rattle.inventory.specs.Tags.{IsTag, AreTags};

use arrayvec::ArrayVec;
use ep_base::{Buf, bit};
use inventory::{BitField, BitHeard, CleanField, InventoryEnd, Prefix, Tag, inventory};
use rf_frame::RfFailed;
use std::alloc::Global;
use std::test::Fail;

/// A card with this UID and SAK 20h.
fn tag(uid: &[u8]) -> Result<Tag, Fail> {
    let mut bytes = Buf::<10>::new();
    bytes.try_extend_from_slice(uid)?;
    Ok(Tag {
        uid: bytes,
        sak: 0x20,
    })
}

// Whether a UID is lawful.
fn is_uid(uid: &[u8]) -> bool
    ensures { result ≡ true → IsUid uid.now × All (λ b. b < 256) uid.now }
{
    match uid.len() {
        4 => uid[0] != 0x88,
        7 => uid[3] != 0x88,
        10 => true,
        _ => false,
    }
}

// Whether a card can stand in a field.
fn is_lawful(card: &Tag) -> bool
    ensures { result ≡ true → IsTag card.now }
{
    is_uid(card.uid.as_slice()) && bit(card.sak, 0x04) == 0
}

// Whether no card of the list has this UID.
fn is_new(cards: &[Tag], uid: &[u8]) -> bool
    ensures { result ≡ true → All (λ u. u.uid ≢ uid.now) cards.now }
{
    for card in cards {
        if card.uid.as_slice() == uid {
            return false;
        }
    }
    true
}

// Cards with these UIDs, if they are lawful.
fn tags(alloc: Global, uids: &[&[u8]]) -> Result<Vec<Tag>, Fail>
    ensures { IfOk result (λ v. AreTags v.items) }
{
    let mut cards = Vec::new(alloc);
    for uid in uids {
        let card = tag(uid)?;
        if !is_lawful(&card) || !is_new(&cards, card.uid.as_slice()) {
            return Err("no such cards".into());
        }
        cards.push(card)?;
    }
    Ok(cards)
}

/// A clean field of the cards with these UIDs.
fn clean(alloc: Global, uids: &[&[u8]]) -> Result<CleanField, Fail> {
    let cards = tags(alloc, uids)?;
    if cards.len() > 16 {
        return Err("too many".into());
    }
    let Ok(field) = CleanField::open(alloc, cards) else {
        return Err("no memory".into());
    };
    Ok(field)
}

/// A number of exchanges, and UIDs in the order in which they are found.
type Row = (u32, &'static [&'static [u8]]);

const ROWS: [Row; 4] = [
    (1, &[]),
    (
        10,
        &[
            b"\x04\x11\x22\x33\x44\x55\x66",
            b"\x04\x11\x22\x77\x88\x99\xaa",
        ],
    ),
    (7, &[b"\x02\x02\x03\x04", b"\x01\x02\x03\x04"]),
    (
        29,
        &[
            b"\x04\x11\x22\x33\x44\x55\x66",
            b"\x04\x11\x22\x33\x44\x55\xe6",
            b"\x04\x11\xa2\x33\x44\x55\x66\x77\x88\x19",
            b"\x04\x11\xa2\x33\x44\x55\x66\x77\x88\x99",
            b"\x04\x11\xa2\x33\x44\xd5\x66\x77\x88\x19",
            b"\x01\x02\x03\x04",
            b"\x01\x02\x03\x84",
        ],
    ),
];

#[test]
fn cards_of_clean_fields(rt: HostRuntime) -> Result<(), Fail> {
    for (exchanges, uids) in &ROWS {
        let mut field = clean(rt.alloc(), uids)?;
        let mut found = ArrayVec::new();
        assert!(rt; inventory(&mut field, &mut found) == Ok(*exchanges));
        assert!(rt; found.len() == uids.len());
        for (card, uid) in found.as_slice().iter().zip(*uids) {
            assert!(rt; card.uid.as_slice() == *uid);
        }
    }
    Ok(())
}

/// A field that answers one thing to the first question and another one to those after it. After so many wakes no card answers,
/// and after so many calls it fails.
#[derive(Drop)]
struct Fake {
    first: BitHeard,
    later: BitHeard,
    sak: Option<u8>,
    wakes: u32,
    calls: u32,
    exchanges: u64,
    faults: u64,
}

impl Fake {
    // Takes one of the calls that it answers, or fails.
    fn takes(&mut self) -> bool
        ensures cause { HasCause self.old.faults self.new.faults (result ≡ false) }
        ensures count { self.new.exchanges ≡ self.old.exchanges }
    {
        if self.calls == 0 {
            self.faults = self.faults.saturating_add(1);
            return false;
        }
        self.calls -= 1;
        true
    }
}

impl BitField for Fake {
    ghost use Rattle.std.specs.Prelude.{ℕ};
    ghost use Rattle.inventory.specs.Steps.{untold};

    ghost State = { Unit {0} };

    ghost state = { λ _. tt };

    ghost steps = { untold };

    ghost exchanges = { λ f. f.exchanges };

    ghost faults = { λ f. f.faults };

    fn reset(&mut self) -> Result<(), RfFailed> {
        if self.takes() { Ok(()) } else { Err(RfFailed) }
    }

    fn wake(&mut self) -> Result<bool, RfFailed> {
        self.exchanges = self.exchanges.saturating_add(1);
        if !self.takes() {
            return Err(RfFailed);
        }
        if self.wakes == 0 {
            return Ok(false);
        }
        self.wakes -= 1;
        Ok(true)
    }

    fn ask(&mut self, _level: u8, _known: &Prefix) -> Result<BitHeard, RfFailed> {
        self.exchanges = self.exchanges.saturating_add(1);
        if !self.takes() {
            return Err(RfFailed);
        }
        let heard = self.first;
        self.first = self.later;
        Ok(heard)
    }

    fn select(&mut self, _level: u8, _value: &[u8; 4]) -> Result<Option<u8>, RfFailed> {
        self.exchanges = self.exchanges.saturating_add(1);
        if self.takes() {
            Ok(self.sak)
        } else {
            Err(RfFailed)
        }
    }
}

/// A field that answers so: one wake is answered, and so many calls.
fn answering(first: BitHeard, later: BitHeard, sak: Option<u8>, calls: u32) -> Fake {
    Fake {
        first,
        later,
        sak,
        wakes: 1,
        calls,
        exchanges: 0,
        faults: 0,
    }
}

/// A split at this place, after bits that are 0.
fn split(at: u8) -> BitHeard {
    BitHeard::Split { agreed: [0; 4], at }
}

/// A refusal at a level, with these bytes known in so many bits.
fn odd(level: u8, bytes: [u8; 4], bits: u8) -> Result<u32, InventoryEnd> {
    Err(InventoryEnd::Odd {
        level,
        known: Prefix { bytes, bits },
    })
}

/// The answer of a card whose first bit is 0.
const EVEN: BitHeard = BitHeard::Level([2, 3, 4, 5, 0]);

#[test]
fn odd_answers(rt: HostRuntime) -> Result<(), Fail> {
    let plain = BitHeard::Level([1, 2, 3, 4, 4]);
    let cascade = BitHeard::Level([0x88, 4, 0x11, 0x22, 0xbf]);
    let late = BitHeard::Level([0x20, 0, 0, 0, 0x20]);
    let none = odd(1, [0; 4], 0);
    let six = odd(1, [0; 4], 6);
    let whole = odd(1, [1, 2, 3, 4], 32);
    for (first, later, sak, wanted, count) in [
        (BitHeard::Silence, plain, Some(0x20), none, 0),
        (BitHeard::Level([1, 2, 3, 4, 5]), plain, Some(0x20), none, 0),
        (split(32), plain, Some(0x20), none, 0),
        (split(5), split(4), Some(0x20), six, 0),
        (split(5), late, Some(0x20), six, 0),
        (plain, plain, None, whole, 0),
        (plain, plain, Some(0x24), whole, 0),
        (
            cascade,
            plain,
            Some(0x20),
            odd(1, [0x88, 4, 0x11, 0x22], 32),
            0,
        ),
        (
            cascade,
            cascade,
            Some(0x04),
            odd(3, [0x88, 4, 0x11, 0x22], 32),
            0,
        ),
        (split(0), EVEN, Some(0x20), none, 1),
        (plain, plain, Some(0x20), Ok(3), 1),
    ] {
        let mut found = ArrayVec::new();
        let mut field = answering(first, later, sak, 100);
        assert!(rt; inventory(&mut field, &mut found) == wanted);
        assert!(rt; found.len() == count);
    }
    Ok(())
}

#[test]
fn each_call_fails(rt: HostRuntime) -> Result<(), Fail> {
    for calls in 0..=5 {
        let mut found = ArrayVec::new();
        let mut field = answering(split(0), EVEN, Some(0x20), calls);
        let end = inventory(&mut field, &mut found);
        assert!(rt; end == Err(InventoryEnd::Device));
        assert!(rt; field.exchanges == u64::from(calls));
        assert!(rt; (field.faults, found.len()) == (1, usize::from(calls == 5)));
    }
    Ok(())
}

/// A field of 16 cards whose values differ in their first four bits, or of 17: then two begin with four bits that are 1.
#[derive(Drop)]
struct Crowd {
    more: bool,
    exchanges: u64,
}

impl BitField for Crowd {
    ghost use Rattle.std.specs.Prelude.{ℕ};
    ghost use Rattle.inventory.specs.Steps.{untold};

    ghost State = { Unit {0} };

    ghost state = { λ _. tt };

    ghost steps = { untold };

    ghost exchanges = { λ f. f.exchanges };

    ghost faults = { λ _. 0 };

    fn reset(&mut self) -> Result<(), RfFailed> {
        Ok(())
    }

    fn wake(&mut self) -> Result<bool, RfFailed> {
        self.exchanges = self.exchanges.saturating_add(1);
        Ok(true)
    }

    fn ask(&mut self, _level: u8, known: &Prefix) -> Result<BitHeard, RfFailed> {
        self.exchanges = self.exchanges.saturating_add(1);
        let bytes = known.bytes;
        let at = known.bits;
        if at < 4 || (at == 4 && bytes[0] == 15 && self.more) {
            return Ok(BitHeard::Split { agreed: bytes, at });
        }
        Ok(BitHeard::Level([bytes[0], 0, 0, 0, bytes[0]]))
    }

    fn select(&mut self, _level: u8, _value: &[u8; 4]) -> Result<Option<u8>, RfFailed> {
        self.exchanges = self.exchanges.saturating_add(1);
        Ok(Some(0x20))
    }
}

#[test]
fn crowds(rt: HostRuntime) -> Result<(), Fail> {
    for more in [false, true] {
        let mut field = Crowd { more, exchanges: 0 };
        let mut found = ArrayVec::new();
        let end = inventory(&mut field, &mut found);
        let wanted = if more {
            Err(InventoryEnd::Many)
        } else {
            Ok(63)
        };
        assert!(rt; end == wanted);
        assert!(rt; field.exchanges == if more { 67 } else { 63 });
        let firsts = [0, 8, 4, 12, 2, 10, 6, 14, 1, 9, 5, 13, 3, 11, 7, 15];
        assert!(rt; found.len() == 16);
        for (card, first) in found.as_slice().iter().zip(firsts.as_slice()) {
            assert!(rt; card.uid.as_slice() == [*first, 0, 0, 0].as_slice());
        }
    }
    Ok(())
}
