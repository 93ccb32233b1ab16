//! An arena of objects in groups, in a fixed number of slots over one block with a fixed number of bytes.
//!
//! `open` takes all the memory that the arena ever needs. The values lie in the block, and move together where the free
//! room is in pieces. An arena is seen as its contents, which are the list of its objects in the order of the puts, each
//! with its serial, group, tag and value, and the two capacities; and beside them the block and the place of each value.
#![tactic(auto)]

ghost use Rattle.std.specs.Prelude.{◌≡◌, ℕ, ◌+◌, ◌-◌, ◌^◌, ◌<◌, ◌≤◌, ◌↔◌, length, IfOk, OnOk, OnErr, IsTrue, IsSome, IfSome, MatchOption, None};
ghost use Rattle.std.specs.Option.{option_map};
ghost use Rattle.ep_base.specs.Objects.Arena as kept;

mod calls;
mod lookup;
mod slot;
mod store;

pub use calls::ArenaCall;
use ep_base::NoMemory;
use lookup::{index_of, serial_of};
use raw_block::RawBlock;
use std::alloc::Global;
use std::marker::Model;
use store::Store;

/// What names an object from its put on.
#[derive(Debug, Clone, Copy, PartialEq, Eq)]
pub struct ObjId {
    /// How many puts came before since the last `clear`.
    pub serial: u64,
}

/// There is no room.
#[derive(Debug, Clone, Copy, PartialEq, Eq)]
pub struct Full {
    /// The bytes of the live objects.
    pub live: usize,
    /// How many objects are live.
    pub slots: usize,
}

/// Why an object keeps its value.
#[derive(Debug, Clone, Copy, PartialEq, Eq)]
pub enum ReplaceEnd {
    /// The object isn't live.
    Gone,
    /// There is no room for the new value in the place of the old one.
    Full(Full),
}

/// Objects in the order of their puts, whose values lie in one block.
#[derive(Drop)]
pub struct Arena {
    store: Store,
    next: u64,
}

impl Model for Arena {
    ghost use Rattle.tlv_arena.specs.Layout.{Held};

    ghost Value = { Held };

    ghost use Rattle.tlv_arena.specs.ArenaState.{held_of, IsArena};

    ghost view = { held_of };

    ghost invariant = { IsArena };
}

impl Arena {
    ghost use Rattle.tlv_arena.specs.Answers.{Counts, PutAnswer, ReplaceAnswer};
    ghost use Rattle.tlv_arena.specs.Layout.{LiesAt, IsLaidOut, place_in};

    /// An empty arena for at most `slots` objects, whose values have at most `bytes` bytes together.
    pub fn open(alloc: Global, bytes: usize, slots: usize) -> Result<Arena, NoMemory>
        requires bytes { (1 ≤ bytes) × (bytes ≤ 65536) }
        requires slots { (1 ≤ slots) × (slots ≤ 65536) }
        ensures { IfOk result (λ arena. arena.contents ≡ kept.opened_arena bytes slots) }
    {
        let store = Store::open(alloc, bytes, slots)?;
        Ok(Arena { store, next: 0 })
    }

    /// The bytes of all live objects.
    pub fn live_bytes(&self) -> usize
        ensures count { result ≡ kept.live_bytes self.now.objects }
        ensures within { result ≤ self.now.bytes }
    {
        self.store.used
    }

    /// How many objects are live.
    pub fn live_slots(&self) -> usize
        ensures count { result ≡ length self.now.objects }
        ensures within { result ≤ self.now.slots }
    {
        self.store.live.len()
    }

    /// What a refusal tells: the two live counts.
    fn full(&self) -> Full
        ensures { Counts self.now.contents result }
    {
        Full {
            live: self.live_bytes(),
            slots: self.live_slots(),
        }
    }

    /// Whether one more object of this length has room, wherever the free bytes lie.
    fn has_room(&self, len: usize) -> bool
        ensures { result ≡ kept.has_room len self.now.contents }
    {
        len <= self.store.block.cap() - self.store.used && self.store.live.len() < self.store.slots
    }

    /// Adds an object at the end. Where its value doesn't fit behind the others, they move together.
    ///
    /// Errors: `Full` where the live bytes and the value's exceed the capacity or all slots are live; then all stays.
    pub fn put(&mut self, group: u16, tag: u32, value: &[u8]) -> Result<ObjId, Full>
        requires { self.old.next < 2 ^ 64 - 1 }
        ensures answer { PutAnswer self.old.contents (length value.now) result }
        ensures contents { self.new.contents ≡ kept.after (kept.put group tag value.now) self.old.contents }
        ensures ok { OnOk result (self.new.contents ≡ kept.with_object group tag value.now self.old.contents) }
        ensures err { OnErr result (self.new ≡ self.old) }
        ensures least { self.old.next ≤ self.new.next }
        ensures most { self.new.next ≤ self.old.next + 1 }
    {
        if !self.has_room(value.len()) {
            return Err(self.full());
        }
        let serial = self.next;
        self.store.put(serial, group, tag, value);
        self.next += 1;
        Ok(ObjId { serial })
    }

    /// The value of an object, or None where the object isn't live.
    pub fn get(&self, id: ObjId) -> Option<&[u8]>
        ensures { option_map (λ v. v.now) result ≡ kept.value_of id.serial self.now.objects }
    {
        let i = index_of(self.store.live.as_slice(), id.serial)?;
        let slot = self.store.live[i];
        Some(self.store.block.view(slot.place, slot.len))
    }

    /// The live object of this group and tag that was put first, or None where there is none.
    pub fn find(&self, group: u16, tag: u32) -> Option<ObjId>
        ensures first { option_map (λ id. id.serial) result ≡ kept.serial_of group tag self.now.objects }
        ensures least { IfSome result (λ id. kept.IsLeast id.serial group tag self.now.objects) }
        ensures value { MatchOption result (kept.value_in group tag self.now.objects ≡ None)
            (λ id. kept.value_of id.serial self.now.objects ≡ kept.value_in group tag self.now.objects) }
    {
        let serial = serial_of(self.store.live.as_slice(), group, tag)?;
        Some(ObjId { serial })
    }

    /// Gives an object another value, at the same place in the order.
    ///
    /// Errors: `Gone` where the object isn't live; else `Full` where the live bytes without the old value and with the
    /// new one exceed the capacity. After an error all stays.
    pub fn replace(&mut self, id: ObjId, value: &[u8]) -> Result<(), ReplaceEnd>
        ensures answer { ReplaceAnswer self.old.contents id.serial value.now result }
        ensures contents { self.new.contents ≡ kept.after (kept.replace id.serial value.now) self.old.contents }
        ensures err { OnErr result (self.new ≡ self.old) }
    {
        let Some(i) = index_of(self.store.live.as_slice(), id.serial) else {
            return Err(ReplaceEnd::Gone);
        };
        let slot = self.store.live[i];
        if value.len() > self.store.block.cap() - (self.store.used - slot.len) {
            return Err(ReplaceEnd::Full(self.full()));
        }
        self.store.rewrite(i, value);
        Ok(())
    }

    /// Takes an object out, and says whether it was live.
    pub fn remove(&mut self, id: ObjId) -> bool
        ensures answer { IsTrue result ↔ IsSome (kept.value_of id.serial self.old.objects) }
        ensures contents { self.new.contents ≡ kept.after (kept.remove id.serial) self.old.contents }
    {
        let Some(i) = index_of(self.store.live.as_slice(), id.serial) else {
            return false;
        };
        self.store.take_out(i);
        true
    }

    /// Takes all objects of a group out, and says how many there were.
    pub fn drop_group(&mut self, group: u16) -> usize
        ensures answer { result + length self.new.objects ≡ length self.old.objects }
        ensures contents { self.new.contents ≡ kept.after (kept.drop_group group) self.old.contents }
    {
        self.store.drop_group(group)
    }

    /// Takes all objects out, and begins the serials anew: an id from before names what is put with its serial then.
    pub fn clear(&mut self)
        ensures { self.new.contents ≡ kept.after kept.clear self.old.contents }
    {
        self.store.clear();
        self.next = 0;
    }

    /// Slides all live objects together at the start of the block, and changes no object.
    pub fn relocate(&mut self)
        ensures contents { self.new.contents ≡ kept.after kept.relocate self.old.contents }
        ensures length { length self.new.block.bytes ≡ kept.live_bytes self.new.objects }
    {
        self.store.relocate();
    }

    /// The one block, in which the values of the live objects lie, each at its `place`.
    pub fn block(&self) -> &RawBlock
        ensures block { result.now ≡ self.now.block }
        ensures cap { result.now.cap ≡ self.now.bytes }
        ensures layout { IsLaidOut self.now }
    {
        &self.store.block
    }

    /// The place in the block from which on the value of an object lies, or None where the object isn't live.
    ///
    /// It holds until a call changes the arena.
    pub fn place(&self, id: ObjId) -> Option<usize>
        ensures place { result ≡ place_in id.serial self.now.objects self.now.places }
        ensures lies { LiesAt self.now id.serial result }
        ensures layout { IsLaidOut self.now }
    {
        let i = index_of(self.store.live.as_slice(), id.serial)?;
        Some(self.store.live[i].place)
    }
}
