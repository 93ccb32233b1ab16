use arrayvec::ArrayVec;
use ep_base::FrameBuf;
use tlv_core::{Node, TlvFault, Walk, read, write_length, write_tag};

fn fault_of(bytes: &[u8]) -> Option<(TlvFault, usize)> {
    read(bytes).err()
}

/// How many nodes are left.
fn count_of(mut walk: Walk<'_>) -> usize {
    let mut count = 0usize;
    for _ in 0..9 {
        if walk.next().is_some() {
            count = count.saturating_add(1);
        }
    }
    count
}

fn nodes_of(bytes: &[u8]) -> Option<usize> {
    read(bytes).ok().map(count_of)
}

/// The place and the length of the first node's value.
fn first_value(bytes: &[u8]) -> Option<(usize, usize)> {
    let node = read(bytes).ok()?.next()?;
    Some((node.at, node.len))
}

#[test]
fn short_inputs(rt: HostRuntime) {
    let mut walk = read(&[0x9f, 0x2a, 0x01, 0x03])
        .ok()
        .expect(&rt, "it is read");
    let node = Node {
        depth: 0,
        tag: 0x9f2a,
        constructed: false,
        at: 3,
        len: 1,
    };
    assert!(rt; walk.next() == Some(node));
    assert!(rt; walk.next() == None);
    assert!(rt; walk.next() == None);
    assert!(rt; fault_of(&[0x9f]) == Some((TlvFault::TagCut, 0)));
    assert!(rt; fault_of(&[0x9f, 0x81, 0x81, 0x01]) == Some((TlvFault::TagLong, 0)));
    assert!(rt; fault_of(&[0x4f, 0x80]) == Some((TlvFault::LengthForm, 0)));
    assert!(rt; fault_of(&[0x4f, 0x83]) == Some((TlvFault::LengthForm, 0)));
    assert!(rt; fault_of(&[0x4f, 0x81]) == Some((TlvFault::LengthCut, 0)));
    assert!(rt; fault_of(&[0x4f, 0x05, 0x01]) == Some((TlvFault::ValueCut, 0)));
    assert!(rt; nodes_of(&[0x4f, 0x81, 0x01, 0xaa]) == Some(1));
    assert!(rt; first_value(&[0x4f, 0x81, 0x01, 0xaa]) == Some((3, 1)));
    assert!(rt; first_value(&[0x4f, 0x82, 0x00, 0x01, 0xaa]) == Some((4, 1)));
    assert!(rt; nodes_of(&[0, 0, 0]) == Some(0));
}

#[test]
fn nested(rt: HostRuntime) {
    let mut walk = read(&[0x6f, 0x05, 0, 0x84, 0x02, 1, 2, 0x50, 0x00])
        .ok()
        .expect(&rt, "it is read");
    assert!(rt; walk.next().map(|node| (node.depth, node.tag, node.at)) == Some((0, 0x6f, 2)));
    assert!(rt; walk.next().map(|node| (node.depth, node.tag, node.at)) == Some((1, 0x84, 5)));
    assert!(rt; walk.next().map(|node| (node.depth, node.tag, node.at)) == Some((0, 0x50, 9)));
    assert!(rt; walk.next() == None);
    // A tag that is cut by the end of the object around it, and not by that of the input.
    assert!(rt;
        fault_of(&[0x61, 0x03, 0x9f, 0x81, 0x81, 0x50, 0x00]) == Some((TlvFault::TagCut, 2))
    );
    let eight = [
        0x6f, 16, 0x6f, 14, 0x6f, 12, 0x6f, 10, 0x6f, 8, 0x6f, 6, 0x6f, 4, 0x6f, 2, 0x50, 0,
    ];
    assert!(rt; nodes_of(&eight) == Some(9));
    let nine = [
        0x6f, 16, 0x6f, 14, 0x6f, 12, 0x6f, 10, 0x6f, 8, 0x6f, 6, 0x6f, 4, 0x6f, 2, 0x70, 0,
    ];
    assert!(rt; fault_of(&nine) == Some((TlvFault::TooDeep, 16)));
}

#[test]
fn written(rt: HostRuntime) {
    let mut out: FrameBuf = ArrayVec::new();
    assert!(rt; write_tag(&mut out, 0x9f2a));
    assert!(rt; write_length(&mut out, 200));
    assert!(rt; out.as_slice() == [0x9f, 0x2a, 0x81, 200].as_slice());
}
