//! The memory of a block in three values: a pointer to it, its bytes, and the right to free it.
//!
//! Only the functions of this file follow the pointer. They are small, since they are proved by hand.
ghost use Rattle.std.specs.Prelude.{◌≡◌, ℕ, ◌<◌, ◌≤◌, ◌+◌, List, Option, Some, None, map, length, take, drop, replicate, slice_set, IfOk};
ghost use denote.RawPtr.{Ptr};
ghost use Rattle.raw_block.specs.Ownership.{cells_own, cells_lent, deed_owns};

use std::alloc::{AllocError, Allocator};
use std::marker::{Model, PhantomData};
use std::slice;

/// Points to the first place of the memory, and may be copied freely.
#[derive(Clone, Copy)]
pub struct Pointer {
    ptr: *mut u8,
}

/// The memory's places, each a byte or room for one, as something to own and to lend. Nothing of it is left in the program.
pub struct Cells {
    mark: PhantomData<*const u8>,
    ghost at: { Ptr },
    ghost slots: { List (Option ℕ) },
}

impl Model for Cells {
    ghost also_owns = { λ c. cells_own c.at c.slots };

    ghost also_shares = { λ c _ κ. cells_lent c.at c.slots κ };
}

/// The right to free the `len` bytes at `at`, which `alloc` gave. Nothing of it is left in the program either.
pub struct Deed<A: Allocator> {
    mark: PhantomData<*const A>,
    ghost at: { Ptr },
    ghost len: { ℕ },
    ghost alloc: { A },
}

impl<A: Allocator> Model for Deed<A> {
    ghost also_owns = { λ d. deed_owns (A.dealloc_token d.alloc) d.at d.len };
}

/// Memory for `len` bytes, none of them filled.
///
/// Errors: `AllocError` where the allocator has no such memory.
pub(crate) fn allocate<A: Allocator>(
    alloc: &A,
    len: usize,
) -> Result<(Pointer, Cells, Deed<A>), AllocError>
    requires { len ≤ 65536 }
    ensures { IfOk result (λ r. (r.1.at ≡ r.0.ptr) × (r.1.slots ≡ replicate len None) × (r.2.at ≡ r.0.ptr) × (r.2.len ≡ len) × (r.2.alloc ≡ alloc.now)) }
{
    match alloc.allocate(len, 1) {
        Ok(ptr) => Ok((
            Pointer { ptr },
            Cells { mark: PhantomData },
            Deed { mark: PhantomData },
        )),
        Err(error) => Err(error),
    }
}

/// Frees the memory, whatever it holds.
pub(crate) fn deallocate<A: Allocator>(
    alloc: &A,
    pointer: Pointer,
    len: usize,
    cells: Cells,
    deed: Deed<A>,
)
    requires { (len ≤ 65536) × (cells.at ≡ pointer.ptr) × (length cells.slots ≡ len) × (deed.at ≡ pointer.ptr) × (deed.len ≡ len) × (deed.alloc ≡ alloc.now) }
{
    let Cells { mark: _ } = cells;
    let Deed { mark: _ } = deed;
    unsafe {
        alloc.deallocate(pointer.ptr, len, 1);
    }
}

impl Cells {
    /// Writes a byte, whatever the place held.
    pub(crate) fn write(&mut self, pointer: Pointer, index: usize, byte: u8)
        requires { (pointer.ptr ≡ self.old.at) × (length self.old.slots ≤ 65536) × (index < length self.old.slots) }
        ensures { (self.new.at ≡ self.old.at) × (self.new.slots ≡ slice_set self.old.slots index (Some byte)) }
    {
        unsafe { pointer.ptr.add(index).write(byte) }
    }

    /// The `len` bytes from the place `from` on, all of which are filled.
    pub(crate) fn slice(&self, pointer: Pointer, from: usize, len: usize) -> &[u8]
        ghost bytes: { List ℕ }
        requires { (pointer.ptr ≡ self.now.at) × (length self.now.slots ≤ 65536) × (from + len ≤ length self.now.slots) × (take len (drop from self.now.slots) ≡ map Some bytes) }
        ensures { result.now ≡ bytes }
    {
        unsafe { slice::from_raw_parts(pointer.ptr.add(from), len) }
    }
}
