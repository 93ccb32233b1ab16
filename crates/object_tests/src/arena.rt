ghost use Rattle.std.specs.Prelude.{◌≡◌};
ghost use Rattle.std.specs.Option.{option_map};
ghost use Rattle.ep_base.specs.Objects.Arena.{value_of};

use tlv_arena::{Arena, ArenaCall, Full, ObjId, ReplaceEnd};

fn holds(arena: &Arena, id: ObjId, value: &[u8]) -> bool {
    match arena.get(id) {
        Some(found) => found == value,
        None => false,
    }
}

/// What the block has at the place of an object, as many bytes as its value has: it is the value.
fn read_in_block(arena: &Arena, id: ObjId) -> Option<&[u8]>
    ensures { option_map (λ v. v.now) result ≡ value_of id.serial arena.now.objects }
{
    let place = arena.place(id)?;
    let len = arena.get(id)?.len();
    Some(arena.block().view(place, len))
}

#[test]
fn free_room_in_pieces(rt: HostRuntime) {
    let mut arena = Arena::open(rt.alloc(), 64, 4).ok().expect(&rt, "it opens");
    let first = arena
        .put(1, 0x50, &[1; 30])
        .ok()
        .expect(&rt, "30 bytes fit");
    let second = arena.put(1, 0x84, &[2; 30]).ok().expect(&rt, "30 more fit");
    assert!(rt; arena.remove(first));
    let third = arena.put(2, 0x84, &[3; 34]).ok().expect(&rt, "34 fit");
    assert!(rt; holds(&arena, second, &[2; 30]));
    assert!(rt; holds(&arena, third, &[3; 34]));
    assert!(rt; arena.get(first).is_none());
    assert!(rt; arena.put(1, 1, &[0]) == Err(Full { live: 64, slots: 2 }));
    assert!(rt; arena.replace(first, &[]) == Err(ReplaceEnd::Gone));
    assert!(rt;
        arena.replace(second, &[4; 31]) == Err(ReplaceEnd::Full(Full { live: 64, slots: 2 }))
    );
    assert!(rt; arena.replace(second, &[4; 29]) == Ok(()));
    assert!(rt; arena.find(2, 0x84) == Some(third));
    assert!(rt; arena.drop_group(1) == 1);
    assert!(rt; arena.live_slots() == 1);
    arena.relocate();
    assert!(rt; holds(&arena, third, &[3; 34]));
    assert!(rt; arena.block().len() == 34);
    arena.clear();
    assert!(rt; arena.live_bytes() == 0);
}

#[test]
fn many_guests_beside_one_that_stays(rt: HostRuntime) {
    let mut arena = Arena::open(rt.alloc(), 1024, 3)
        .ok()
        .expect(&rt, "it opens");
    let low = arena.put(1, 1, &[7; 200]).ok().expect(&rt, "200 bytes fit");
    let stays = arena.put(1, 2, &[1; 256]).ok().expect(&rt, "256 more fit");
    assert!(rt; arena.remove(low));
    for _ in 0..448u32 {
        let guest = arena.put(2, 3, &[2; 256]).ok().expect(&rt, "256 bytes fit");
        assert!(rt; holds(&arena, guest, &[2; 256]));
        assert!(rt; arena.remove(guest));
    }
    assert!(rt; holds(&arena, stays, &[1; 256]));
    let large = arena.put(3, 4, &[3; 768]).ok().expect(&rt, "768 bytes fit");
    assert!(rt; holds(&arena, large, &[3; 768]));
    assert!(rt; arena.block().cap() == 1024);
    assert!(rt; arena.place(stays) == Some(0));
    assert!(rt; arena.place(large) == Some(256));
    assert!(rt; arena.replace(stays, &[4; 250]) == Ok(()));
    assert!(rt; arena.remove(large));
    assert!(rt; arena.place(large) == None);
    arena.relocate();
    assert!(rt; arena.place(stays) == Some(0));
    assert!(rt; arena.block().len() == 250);
    assert!(rt; arena.live_bytes() == 250);
    assert!(rt; arena.block().view(0, 250) == [4; 250].as_slice());
}

#[test]
fn a_list_of_calls(rt: HostRuntime) {
    let mut arena = Arena::open(rt.alloc(), 64, 4).ok().expect(&rt, "it opens");
    arena.make_all(&[
        ArenaCall::Put {
            group: 1,
            tag: 0x50,
            value: &[1; 30],
        },
        ArenaCall::Put {
            group: 2,
            tag: 0x50,
            value: &[2; 30],
        },
        ArenaCall::Replace {
            id: ObjId { serial: 1 },
            value: &[3; 34],
        },
        ArenaCall::Relocate,
        ArenaCall::Remove {
            id: ObjId { serial: 0 },
        },
    ]);
    assert!(rt; arena.find(2, 0x50) == Some(ObjId { serial: 1 }));
    assert!(rt; holds(&arena, ObjId { serial: 1 }, &[3; 34]));
    arena.make_all(&[ArenaCall::DropGroup { group: 2 }, ArenaCall::Clear]);
    assert!(rt; arena.live_slots() == 0);
}
