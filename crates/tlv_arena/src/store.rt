//! The table of an arena's live objects, and the one block in which their values lie.
ghost use Rattle.std.specs.Prelude.{◌≡◌, ℕ, ◌+◌, ◌-◌, ◌<◌, ◌≤◌, [], ◌∷◌, ◌++◌, length, vec_len, IfOk, remove, get_or};
ghost use Rattle.std.specs.List.{AllByRecursion};
ghost use Rattle.ep_base.specs.Objects.Arena as kept;
ghost use Rattle.tlv_arena.specs.StoreState.{Done};

use crate::lookup::lowest;
use crate::slot::Slot;
use ep_base::NoMemory;
use raw_block::RawBlock;
use std::alloc::Global;

/// The live objects in the order of their puts, and the block in which their values lie.
#[derive(Drop)]
pub(crate) struct Store {
    pub(crate) block: RawBlock,
    pub(crate) live: Vec<Slot>,
    pub(crate) used: usize,
    pub(crate) slots: usize,
}

impl Store {
    ghost use Rattle.ep_base.specs.Objects.Arena.{Object, live_bytes};
    ghost use Rattle.tlv_arena.specs.StoreState.{IsStore, Becomes, IsPacked, objects_of, with_value};

    /// Takes all the memory that the store ever needs.
    ///
    /// Errors: `NoMemory` where it can't be had.
    pub(crate) fn open(alloc: Global, bytes: usize, slots: usize) -> Result<Store, NoMemory>
        requires bytes { (1 ≤ bytes) × (bytes ≤ 65536) }
        ensures store { IfOk result IsStore }
        ensures empty { IfOk result (λ s. s.live.items ≡ []) }
        ensures slots { IfOk result (λ s. s.slots ≡ slots) }
        ensures bytes { IfOk result (λ s. s.block.cap ≡ bytes) }
    {
        let live = Vec::with_capacity(alloc, slots).map_err(|_| NoMemory)?;
        let block = RawBlock::open(alloc, bytes)?;
        Ok(Store {
            block,
            live,
            used: 0,
            slots,
        })
    }

    /// Slides the lowest value with bytes that lies at `to` or above down to `to`, and says how many bytes it has: 0
    /// where there is none.
    fn pull(&mut self, to: usize) -> usize
        requires { IsPacked to self.old }
        ensures packed { IsPacked (to + result) self.new }
        ensures objects { Becomes self.old (objects_of self.old) self.new }
        ensures done { result ≡ 0 → AllByRecursion (Done to) self.new.live.items }
    {
        let Some(i) = lowest(self.live.as_slice(), to) else {
            return 0;
        };
        let slot = self.live[i];
        self.block.slide(slot.place, to, slot.len);
        self.live[i] = Slot { place: to, ..slot };
        slot.len
    }

    /// Slides all values together at the start of the block, in the order of their places, and frees the rest.
    pub(crate) fn relocate(&mut self)
        requires { IsStore self.old }
        ensures becomes { Becomes self.old (objects_of self.old) self.new }
        ensures length { length self.new.block.bytes ≡ self.new.used }
    {
        let mut to = 0;
        let mut moved = self.pull(0);
        while moved > 0 {
            to += moved;
            moved = self.pull(to);
        }
        self.block.cut(to);
    }

    /// Relocates where the tail has no room for so many bytes.
    fn make_room(&mut self, len: usize)
        requires store { IsStore self.old }
        requires room { self.old.used + len ≤ self.old.block.cap }
        ensures becomes { Becomes self.old (objects_of self.old) self.new }
        ensures tail { length self.new.block.bytes + len ≤ self.new.block.cap }
    {
        if len > self.block.cap() - self.block.len() {
            self.relocate();
        }
    }

    /// Where the next value is to lie, which has `len` bytes.
    fn tail(&self, len: usize) -> usize
        ensures none { len ≡ 0 → result ≡ 0 }
        ensures some { 0 < len → result ≡ length self.now.block.bytes }
    {
        if len == 0 { 0 } else { self.block.len() }
    }

    /// Gives the object at this index, which has no bytes, a value.
    fn fill(&mut self, i: usize, value: &[u8])
        requires store { IsStore self.old }
        requires place { i < vec_len self.old.live }
        requires empty { (o : Object) → o ≡ get_or (objects_of self.old) i o → o.value ≡ [] }
        requires room { self.old.used + length value.now ≤ self.old.block.cap }
        ensures { Becomes self.old (with_value (objects_of self.old) i value.now) self.new }
    {
        self.make_room(value.len());
        let slot = self.live[i];
        let place = self.tail(value.len());
        self.block.append(value);
        self.used += value.len();
        self.live[i] = Slot {
            place,
            len: value.len(),
            ..slot
        };
    }

    /// Gives the object at this index no bytes.
    fn empty(&mut self, i: usize)
        requires store { IsStore self.old }
        requires place { i < vec_len self.old.live }
        ensures { Becomes self.old (with_value (objects_of self.old) i []) self.new }
    {
        let slot = self.live[i];
        self.used -= slot.len;
        self.live[i] = Slot {
            place: 0,
            len: 0,
            ..slot
        };
    }

    /// Adds an object with no bytes at the end.
    fn append(&mut self, serial: u64, group: u16, tag: u32)
        requires store { IsStore self.old }
        requires slot { vec_len self.old.live < self.old.slots }
        ensures { Becomes self.old (objects_of self.old ++ (record { serial = serial; group = group; tag = tag; value = [] }) ∷ []) self.new }
    {
        let slot = Slot {
            serial,
            group,
            tag,
            place: 0,
            len: 0,
        };
        let Ok(()) = self.live.push(slot) else {
            unreachable!()
        };
    }

    /// Takes the object at this index out.
    pub(crate) fn take_out(&mut self, i: usize)
        requires store { IsStore self.old }
        requires place { i < vec_len self.old.live }
        ensures { Becomes self.old (remove (objects_of self.old) i) self.new }
    {
        let slot = self.live.remove(i);
        self.used -= slot.len;
    }

    /// Adds an object at the end.
    pub(crate) fn put(&mut self, serial: u64, group: u16, tag: u32, value: &[u8])
        requires store { IsStore self.old }
        requires room { self.old.used + length value.now ≤ self.old.block.cap }
        requires slot { vec_len self.old.live < self.old.slots }
        ensures { Becomes self.old (objects_of self.old ++ (record { serial = serial; group = group; tag = tag; value = value.now }) ∷ []) self.new }
    {
        let last = self.live.len();
        self.append(serial, group, tag);
        self.fill(last, value);
    }

    /// Gives the object at this index another value.
    pub(crate) fn rewrite(&mut self, i: usize, value: &[u8])
        requires store { IsStore self.old }
        requires place { i < vec_len self.old.live }
        requires room { live_bytes (with_value (objects_of self.old) i value.now) ≤ self.old.block.cap }
        ensures { Becomes self.old (with_value (objects_of self.old) i value.now) self.new }
    {
        self.empty(i);
        self.fill(i, value);
    }

    /// Takes all objects of a group out, and says how many there were.
    pub(crate) fn drop_group(&mut self, group: u16) -> usize
        requires { IsStore self.old }
        ensures becomes { Becomes self.old (kept.without_group group (objects_of self.old)) self.new }
        ensures count { result + vec_len self.new.live ≡ vec_len self.old.live }
    {
        let before = self.live.len();
        let mut i = 0;
        while i < self.live.len() {
            if self.live[i].group == group {
                self.take_out(i);
            } else {
                i += 1;
            }
        }
        before - self.live.len()
    }

    /// Takes all objects out.
    pub(crate) fn clear(&mut self)
        requires { IsStore self.old }
        ensures { Becomes self.old [] self.new }
    {
        self.live.clear();
        self.used = 0;
        self.block.cut(0);
    }
}
