//! The entries of a directory, put into an arena.
ghost use Rattle.std.specs.Prelude.{◌≡◌, ◌≤◌, ◌<◌, length, false};
ghost use Rattle.ep_base.specs.Objects.Reading.{forest_of};
ghost use Rattle.ep_base.specs.Objects.Directory.{entries_of, with_value, with_entry, with_entries};
ghost use Rattle.ppse.specs.Listing.{first_in, entry_in};
ghost use Rattle.ppse.specs.Room.{HasSpare, value_cost, entry_cost, entries_cost};

use crate::find::{first, next_of};
use crate::tags::{
    ADF_NAME, APPLICATION_LABEL, APPLICATION_PRIORITY, DIRECTORY_ENTRY, EXTENDED_SELECTION,
    KERNEL_IDENTIFIER,
};
use ep_base::DATA;
use tlv_arena::Arena;
use tlv_core::{one_reading, read};

/// Puts the value of an entry's first primitive object of this tag, where it has one.
fn put_value(arena: &mut Arena, entry: u16, tag: u32, objects: &[u8])
    requires { HasSpare (value_cost (first_in false tag (forest_of objects.now))) arena.old.contents }
    ensures { arena.new.contents ≡ with_value entry tag (first_in false tag (forest_of objects.now)) arena.old.contents }
{
    let Some(value) = first(objects, tag, false) else {
        return;
    };
    let Ok(_) = arena.put(entry, tag, value) else {
        unreachable!()
    };
}

/// Puts the values of an entry, whose objects these are.
fn put_entry(arena: &mut Arena, entry: u16, objects: &[u8])
    requires { HasSpare (entry_cost (entry_in (forest_of objects.now))) arena.old.contents }
    ensures { arena.new.contents ≡ with_entry entry (entry_in (forest_of objects.now)) arena.old.contents }
{
    put_value(arena, entry, ADF_NAME, objects);
    put_value(arena, entry, APPLICATION_LABEL, objects);
    put_value(arena, entry, APPLICATION_PRIORITY, objects);
    put_value(arena, entry, KERNEL_IDENTIFIER, objects);
    put_value(arena, entry, EXTENDED_SELECTION, objects);
}

/// Puts the values of all entries among these objects, entry n in group n, and says how many entries there are.
pub(crate) fn put_entries(arena: &mut Arena, objects: &[u8]) -> u16
    requires length { length objects.now ≤ DATA }
    requires spare { HasSpare DATA arena.old.contents }
    ensures count { result ≡ length (entries_of (forest_of objects.now)) }
    ensures contents { arena.new.contents ≡ with_entries 1 (entries_of (forest_of objects.now)) arena.old.contents }
    ensures cost { entries_cost (entries_of (forest_of objects.now)) ≤ DATA }
{
    one_reading();
    let Ok(mut walk) = read(objects) else {
        return 0;
    };
    let mut entries = 0;
    while let Some(node) = next_of(&mut walk, DIRECTORY_ENTRY, true) {
        entries += 1;
        put_entry(arena, entries, &objects[node.at..node.at + node.len]);
    }
    entries
}
