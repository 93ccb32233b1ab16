//! A block of bytes that is taken once, filled from its front, and read and moved by place.
//!
//! A block is seen as the list of its filled bytes and the number that it has room for. Only the filled part is
//! initialised. No other crate has raw pointers.
#![tactic(auto)]

ghost use Rattle.std.specs.Prelude.{◌≡◌, ℕ, ◌+◌, ◌≤◌, ◌<◌, [], ◌∷◌, ◌++◌, length, take, slice_set, slice_get, Some, IfOk};
ghost use Rattle.ep_base.specs.Objects.RawBytes.{block, bytes_at, slid};

mod cells;

// For contracts of other crates, which read the fields of a block through its view.
#[doc(hidden)]
pub use cells::{Cells, Deed, Pointer};
use cells::{allocate, deallocate};
use ep_base::NoMemory;
use std::alloc::Global;
use std::marker::Model;

/// At most `cap` bytes in one piece of memory, of which the first `len` are filled.
pub struct RawBlock {
    pointer: Pointer,
    cells: Cells,
    deed: Deed<Global>,
    len: usize,
    cap: usize,
    alloc: Global,
}

impl Model for RawBlock {
    ghost use Rattle.ep_base.specs.Objects.RawBytes.{RawBytes as RawBytesData, block_code};
    ghost use Rattle.raw_block.specs.BlockState.{bytes_of, IsBlock};

    ghost Value = { RawBytesData };

    ghost coded = { block_code };

    ghost view = { bytes_of };

    ghost invariant = { IsBlock };
}

impl RawBlock {
    /// An empty block with room for `cap` bytes, 1 to 65,536.
    ///
    /// Errors: `NoMemory` where the room can't be had.
    pub fn open(alloc: Global, cap: usize) -> Result<RawBlock, NoMemory>
        requires least { 1 ≤ cap }
        requires most { cap ≤ 65536 }
        ensures { IfOk result (λ b. b ≡ block [] cap) }
    {
        match allocate(&alloc, cap) {
            Ok((pointer, cells, deed)) => Ok(RawBlock {
                pointer,
                cells,
                deed,
                len: 0,
                cap,
                alloc,
            }),
            Err(_) => Err(NoMemory),
        }
    }

    /// How many bytes are filled.
    pub fn len(&self) -> usize
        ensures count { result ≡ length self.now.bytes }
        ensures within { result ≤ self.now.cap }
    {
        self.len
    }

    /// How many bytes there is room for.
    pub fn cap(&self) -> usize
        ensures cap { result ≡ self.now.cap }
        ensures least { 1 ≤ result }
        ensures most { result ≤ 65536 }
    {
        self.cap
    }

    /// Adds one byte at the end.
    fn push(&mut self, byte: u8)
        requires { length self.old.bytes < self.old.cap }
        ensures { self.new ≡ block (self.old.bytes ++ byte ∷ []) self.old.cap }
    {
        self.cells.write(self.pointer, self.len, byte);
        self.len += 1;
    }

    /// Writes a byte over a filled one.
    fn set(&mut self, at: usize, byte: u8)
        requires { at < length self.old.bytes }
        ensures { self.new ≡ block (slice_set self.old.bytes at byte) self.old.cap }
    {
        self.cells.write(self.pointer, at, byte);
    }

    /// The byte at this place.
    fn get(&self, at: usize) -> u8
        requires { at < length self.now.bytes }
        ensures { slice_get self.now.bytes at ≡ Some result }
    {
        self.view(at, 1)[0]
    }

    /// Adds the bytes of `piece` at the end, where there is room for them.
    pub fn append(&mut self, piece: &[u8])
        requires fits { length self.old.bytes + length piece.now ≤ self.old.cap }
        ensures { self.new ≡ block (self.old.bytes ++ piece.now) self.old.cap }
    {
        for byte in piece {
            self.push(*byte);
        }
    }

    /// Copies the `len` bytes from place `from` on down to place `to`. The two ranges may overlap.
    pub fn slide(&mut self, from: usize, to: usize, len: usize)
        requires down { to ≤ from }
        requires within { from + len ≤ length self.old.bytes }
        ensures { self.new ≡ block (slid from to len self.old.bytes) self.old.cap }
    {
        // A proof knows the bounds of the block once a field has been read.
        let _filled = self.len;
        for i in 0..len {
            let byte = self.get(from + i);
            self.set(to + i, byte);
        }
    }

    /// Keeps the first `top` bytes alone.
    pub fn cut(&mut self, top: usize)
        requires within { top ≤ length self.old.bytes }
        ensures { self.new ≡ block (take top self.old.bytes) self.old.cap }
    {
        self.len = top;
    }

    /// The `len` bytes from place `at` on.
    pub fn view(&self, at: usize, len: usize) -> &[u8]
        requires within { at + len ≤ length self.now.bytes }
        ensures { result.now ≡ bytes_at at len self.now.bytes }
    {
        self.cells.slice(self.pointer, at, len)
    }
}

impl Drop for RawBlock {
    fn drop(self) {
        let RawBlock {
            pointer,
            cells,
            deed,
            len: _,
            cap,
            alloc,
        } = self;
        deallocate(&alloc, pointer, cap, cells, deed);
    }
}
