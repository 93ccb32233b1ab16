//! The directory of a card's applications: the response to SELECT PPSE, read into an arena (EMV Book B).
#![tactic(auto)]

ghost use Rattle.std.specs.Prelude.{◌≡◌, ◌+◌, ◌*◌, ◌^◌, ◌<◌, ◌≤◌, [], length, IfSome};
ghost use Rattle.std.specs.Option.{option_map};
ghost use Rattle.ep_base.specs.Objects.Arena.{live_bytes, value_in};
ghost use Rattle.ep_base.specs.Objects.Directory.{directory, with_entries, entries_held};
ghost use Rattle.ppse.specs.Listing.{listed};

mod entries;
mod find;
mod laws;
mod tags;

use apdu::{Response, SUCCESS};
use entries::put_entries;
use ep_base::{ARENA_BYTES, ARENA_SLOTS, DATA};
use find::first;
pub use laws::other_groups;
pub use tags::{
    ADF_NAME, APPLICATION_LABEL, APPLICATION_PRIORITY, DIRECTORY_ENTRY, EXTENDED_SELECTION,
    FCI_ISSUER_DATA, FCI_PROPRIETARY_TEMPLATE, FCI_TEMPLATE, KERNEL_IDENTIFIER,
};
use tlv_arena::Arena;
use tlv_core::one_reading;

/// A directory whose entries lie in an arena: the values of entry n, from 1, are the objects of group n.
#[derive(Clone, Copy, Debug, PartialEq, Eq)]
pub struct Directory {
    /// How many entries there are.
    pub entries: u16,
}

/// The objects among which the entries are, where there are such.
fn listing(answer: &Response) -> Option<&[u8]>
    ensures entries { directory answer.now ≡ listed (option_map (λ v. v.now) result) }
    ensures most { IfSome result (λ v. length v.now ≤ DATA) }
{
    one_reading();
    if answer.sw() != SUCCESS {
        return None;
    }
    let template = first(answer.data(), FCI_TEMPLATE, true)?;
    let proprietary = first(template, FCI_PROPRIETARY_TEMPLATE, true)?;
    first(proprietary, FCI_ISSUER_DATA, true)
}

/// Reads the directory of the response to SELECT PPSE into an empty arena.
///
/// The values of 4F, 50, 87, 9F2A and 9F29 that entry n has are put in group n, in this order. No entry is put where
/// the status word isn't 9000, the data isn't a list of objects, or a template is missing. There is always room.
pub fn read_directory(arena: &mut Arena, answer: &Response) -> Directory
    requires empty { arena.old.objects ≡ [] }
    requires bytes { ARENA_BYTES ≤ arena.old.bytes }
    requires slots { ARENA_SLOTS ≤ arena.old.slots }
    // As many puts may still come.
    requires serials { arena.old.next + ARENA_SLOTS < 2 ^ 64 }
    ensures entries { result.entries ≡ length (directory answer.now) }
    ensures contents { arena.new.contents ≡ with_entries 1 (directory answer.now) arena.old.contents }
    // What the groups hold says the entries.
    ensures held { entries_held result.entries arena.new.objects ≡ directory answer.now }
    // How much of the arena is taken.
    ensures room { live_bytes arena.new.objects + 2 * length arena.new.objects ≤ DATA }
    ensures next { arena.new.next ≡ arena.old.next + length arena.new.objects }
    ensures capacities { (arena.new.bytes ≡ arena.old.bytes) × (arena.new.slots ≡ arena.old.slots) }
{
    let Some(objects) = listing(answer) else {
        return Directory { entries: 0 };
    };
    Directory {
        entries: put_entries(arena, objects),
    }
}

/// The value that an entry of a directory has for a tag, or None where it has none. Entries are numbered from 1.
pub fn entry_value(arena: &Arena, entry: u16, tag: u32) -> Option<&[u8]>
    ensures { option_map (λ v. v.now) result ≡ value_in entry tag arena.now.objects }
{
    let id = arena.find(entry, tag)?;
    arena.get(id)
}
