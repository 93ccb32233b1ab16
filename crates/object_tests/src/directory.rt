use apdu::Response;
use ep_base::{ARENA_BYTES, ARENA_SLOTS};
use ppse::{
    ADF_NAME, APPLICATION_LABEL, APPLICATION_PRIORITY, EXTENDED_SELECTION, KERNEL_IDENTIFIER,
    entry_value, read_directory,
};
use std::alloc::Global;
use tlv_arena::Arena;

fn holds(arena: &Arena, entry: u16, tag: u32, value: &[u8]) -> bool {
    match entry_value(arena, entry, tag) {
        Some(found) => found == value,
        None => false,
    }
}

/// Two entries: a name of seven bytes, and one of nine with a second name, a priority of 2, a kernel and a selection.
#[test]
fn two_entries(rt: HostRuntime) {
    let mut arena = Arena::open(rt.alloc(), ARENA_BYTES, ARENA_SLOTS)
        .ok()
        .expect(&rt, "it opens");
    let answer = Response::of(&[
        0x6f, 0x3e, 0x84, 0x0e, 0x32, 0x50, 0x41, 0x59, 0x2e, 0x53, 0x59, 0x53, 0x2e, 0x44, 0x44,
        0x46, 0x30, 0x31, 0xa5, 0x2c, 0xbf, 0x0c, 0x29, 0x61, 0x09, 0x4f, 0x07, 0xa0, 0x00, 0x00,
        0x00, 0x03, 0x10, 0x10, 0x61, 0x1c, 0x4f, 0x09, 0xa0, 0x00, 0x00, 0x00, 0x03, 0x10, 0x10,
        0x01, 0x02, 0x4f, 0x01, 0xff, 0x87, 0x01, 0x02, 0x9f, 0x2a, 0x01, 0x03, 0x9f, 0x29, 0x02,
        0xaa, 0xbb, 0x00, 0x00, 0x90, 0x00,
    ])
    .ok()
    .expect(&rt, "it is a response");
    let directory = read_directory(&mut arena, &answer);
    assert!(rt; directory.entries == 2);
    assert!(rt; holds(&arena, 1, ADF_NAME, &[0xa0, 0, 0, 0, 3, 0x10, 0x10]));
    assert!(rt; entry_value(&arena, 1, APPLICATION_PRIORITY).is_none());
    assert!(rt; holds(&arena, 2, ADF_NAME, &[0xa0, 0, 0, 0, 3, 0x10, 0x10, 1, 2]));
    assert!(rt; entry_value(&arena, 2, APPLICATION_LABEL).is_none());
    assert!(rt; holds(&arena, 2, APPLICATION_PRIORITY, &[2]));
    assert!(rt; holds(&arena, 2, KERNEL_IDENTIFIER, &[3]));
    assert!(rt; holds(&arena, 2, EXTENDED_SELECTION, &[0xaa, 0xbb]));
    assert!(rt; arena.live_slots() == 5);
}

fn entries_of(alloc: Global, bytes: &[u8]) -> Option<u16> {
    let mut arena = Arena::open(alloc, ARENA_BYTES, ARENA_SLOTS).ok()?;
    let answer = Response::of(bytes).ok()?;
    Some(read_directory(&mut arena, &answer).entries)
}

#[test]
fn no_entries(rt: HostRuntime) {
    // Another status word, a length byte that is cut, no template, and a first template without the next one.
    assert!(rt; entries_of(rt.alloc(), &[0x6a, 0x82]) == Some(0));
    assert!(rt; entries_of(rt.alloc(), &[0x6f, 0x90, 0x00]) == Some(0));
    assert!(rt; entries_of(rt.alloc(), &[0x90, 0x00]) == Some(0));
    assert!(rt;
        entries_of(
            rt.alloc(),
            &[
                0x6f, 0x00, 0x6f, 0x07, 0xa5, 0x05, 0xbf, 0x0c, 0x02, 0x61, 0x00, 0x90, 0x00,
            ],
        ) == Some(0)
    );
    assert!(rt;
        entries_of(
            rt.alloc(),
            &[
                0x6f, 0x07, 0xa5, 0x05, 0xbf, 0x0c, 0x02, 0x61, 0x00, 0x90, 0x00,
            ],
        ) == Some(1)
    );
}
