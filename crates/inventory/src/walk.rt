//! Where an inventory stands between two exchanges.
ghost use Rattle.std.specs.Prelude.{◌≡◌, ◌≤◌, ◌<◌, ◌++◌, List, length, IfErr, OnErr, true, false};
ghost use Rattle.inventory.specs.Tags.{Tag};
ghost use Rattle.inventory.specs.Walks as plain;
ghost use Rattle.inventory.specs.Walks.{blank, nothing, begun, known_of, uid_at, with_at, after_heard, after_selected, turned_back, walked, turned, IsWalk, IsClearEnd, IsPrefix};

use crate::bits::{bcc, begins, with_bit};
use crate::field::{BitHeard, Prefix};
use crate::listing::InventoryEnd;
use crate::tag::Tag;
use arrayvec::ArrayVec;
use ep_base::{Buf, bit};
use std::marker::Model;

// What is known of the values of the three levels of the cards that are sought: all bits of the first ones, some bits of the
// next, and no bit of those after it.
#[derive(Clone, Copy, Debug, PartialEq, Eq)]
pub(crate) struct Path {
    first: Prefix,
    second: Prefix,
    third: Prefix,
}

// No bit.
pub(crate) const NOTHING: Prefix = Prefix {
    bytes: [0; 4],
    bits: 0,
};

impl Default for Path {
    fn default() -> Path
        ensures { result ≡ blank }
    {
        Path {
            first: NOTHING,
            second: NOTHING,
            third: NOTHING,
        }
    }
}

impl Path {
    // What is known at a level from 1 to 3.
    fn at(&self, level: u8) -> Prefix
        requires { (1 ≤ level) × (level ≤ 3) }
        ensures { result ≡ plain.at self.now level }
    {
        match level {
            1 => self.first,
            2 => self.second,
            _ => self.third,
        }
    }

    // The same with these bits at a level from 1 to 3.
    fn with(&self, level: u8, known: Prefix) -> Path
        requires { (1 ≤ level) × (level ≤ 3) }
        ensures { result ≡ with_at self.now level known }
    {
        match level {
            1 => Path {
                first: known,
                ..*self
            },
            2 => Path {
                second: known,
                ..*self
            },
            _ => Path {
                third: known,
                ..*self
            },
        }
    }
}

// The bytes of a UID by its levels.
fn joined(first: &[u8], second: &[u8], last: &[u8; 4]) -> Buf<10>
    requires few { (length first.now ≤ 3) × (length second.now ≤ 3) }
    ensures { result.items ≡ first.now ++ (second.now ++ last.now) }
{
    let mut uid = Buf::<10>::new();
    uid.try_extend_from_slice(first).unwrap();
    uid.try_extend_from_slice(second).unwrap();
    uid.try_extend_from_slice(last).unwrap();
    uid
}

// The paths on which cards are still to be found: of those that agree in the most bits last.
type Paths = ArrayVec<Path, 96>;

// The path that is followed, the level at which its cards stand, whether they were woken, and the other paths.
#[derive(Drop)]
pub(crate) struct Walk {
    path: Path,
    level: u8,
    awake: bool,
    pending: Paths,
}

impl Model for Walk {
    ghost use Rattle.inventory.specs.Walks.{Walk};
    ghost use Rattle.inventory.specs.WalkView.{walk_of, WalkFits};

    ghost Value = { Walk };

    ghost view = { walk_of };

    ghost invariant = { WalkFits };
}

impl Walk {
    // All cards are sought, and were woken.
    pub(crate) fn start() -> Walk
        ensures { result ≡ begun }
    {
        Walk {
            path: Path::default(),
            level: 1,
            awake: true,
            pending: Paths::new(),
        }
    }

    // The level at which its cards stand.
    pub(crate) fn level(&self) -> u8
        ensures value { result ≡ self.now.level }
        ensures least { 1 ≤ result }
        ensures most { result ≤ 3 }
    {
        self.level
    }

    // Whether its cards were woken.
    pub(crate) fn awake(&self) -> bool
        ensures { result ≡ self.now.awake }
    {
        self.awake
    }

    // What is known of the value at this level.
    pub(crate) fn known(&self) -> Prefix
        ensures { result ≡ known_of self.now }
    {
        self.path.at(self.level)
    }

    // The cards were woken.
    pub(crate) fn woken(&mut self)
        ensures { self.new ≡ record self.old { awake = true } }
    {
        self.awake = true;
    }

    // The refusal of what was heard.
    fn odd(&self) -> InventoryEnd
        ensures { result ≡ plain.odd self.now }
    {
        InventoryEnd::Odd {
            level: self.level,
            known: self.known(),
        }
    }

    // Takes what was heard of the cards that begin with what is known.
    pub(crate) fn heard(&mut self, heard: &BitHeard) -> Result<(), InventoryEnd>
        requires { IsWalk self.old }
        ensures { walked result self.new ≡ after_heard self.old heard.now }
    {
        let known = self.known();
        match heard {
            BitHeard::Silence => Err(self.odd()),
            BitHeard::Level(part) => {
                let value = [part[0], part[1], part[2], part[3]];
                if part[4] != bcc(&value) || !begins(&value, &known) {
                    return Err(self.odd());
                }
                self.path = self.path.with(
                    self.level,
                    Prefix {
                        bytes: value,
                        bits: 32,
                    },
                );
                Ok(())
            }
            BitHeard::Split { agreed, at } => {
                if *at < known.bits || *at > 31 || !begins(agreed, &known) {
                    return Err(self.odd());
                }
                let one = self.path.with(self.level, with_bit(agreed, *at, true));
                self.pending.push(one);
                self.path = self.path.with(self.level, with_bit(agreed, *at, false));
                Ok(())
            }
        }
    }

    // The UID of the card whose last level this is.
    fn uid(&self) -> Buf<10>
        ensures { result.items ≡ uid_at self.now.path self.now.level }
    {
        let path = &self.path;
        match self.level {
            1 => joined(&[], &[], &path.first.bytes),
            2 => joined(&path.first.bytes[1..], &[], &path.second.bytes),
            _ => joined(
                &path.first.bytes[1..],
                &path.second.bytes[1..],
                &path.third.bytes,
            ),
        }
    }

    // Takes the SAK that the selection of the known value gave, and says whether all cards are found.
    pub(crate) fn selected(
        &mut self,
        sak: Option<u8>,
        found: &mut ArrayVec<Tag, 16>,
    ) -> Result<bool, InventoryEnd>
        ensures turned { turned result self.new found.new.items ≡ after_selected self.old found.old.items sak }
        ensures kept { OnErr result (found.new.items ≡ found.old.items) }
    {
        let Some(sak) = sak else {
            return Err(self.odd());
        };
        let more = bit(sak, 0x04) == 1;
        let tells_more = self.level < 3 && self.known().bytes[0] == 0x88;
        if more != tells_more {
            return Err(self.odd());
        }
        if more {
            self.level += 1;
            return Ok(false);
        }
        if found.is_full() {
            return Err(InventoryEnd::Many);
        }
        found.push(Tag {
            uid: self.uid(),
            sak,
        });
        Ok(self.turn_back())
    }

    // Goes on with the last of the other paths, or says that there is none.
    fn turn_back(&mut self) -> bool
        ensures back { (found : List Tag) → record { over = result; walk = self.new; found = found } ≡ turned_back self.old self.old.pending found }
    {
        let Some(path) = self.pending.pop() else {
            return true;
        };
        self.path = path;
        self.level = 1;
        self.awake = false;
        false
    }
}
