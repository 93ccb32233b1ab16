//! Spellings from outside.

use block_pcb::{Block, BlockFault, decode, encode};
use ep_base::FrameBuf;

#[test]
fn bytes_that_are_no_block(rt: HostRuntime) {
    let cases: [(&[u8], BlockFault); 17] = [
        (b"", BlockFault::Empty),
        (b"\x0a\x00", BlockFault::Cid),
        (b"\x0e\x00\x00", BlockFault::Cid),
        (b"\xaa\x00", BlockFault::Cid),
        (b"\xca\x00", BlockFault::Cid),
        (b"\xfa\x00\x01", BlockFault::Cid),
        (b"\x06\x00", BlockFault::Nad),
        (b"\x17\x00", BlockFault::Nad),
        (b"\xa6", BlockFault::BadPcb),
        (b"\xae", BlockFault::BadPcb),
        (b"\xe2", BlockFault::BadPcb),
        (b"\x00", BlockFault::BadPcb),
        (b"\xa2\x01", BlockFault::BadInf),
        (b"\xf2", BlockFault::BadInf),
        (b"\xf2\x01\x01", BlockFault::BadInf),
        (b"\xf2\x00", BlockFault::BadWtxm),
        (b"\xf2\x3c", BlockFault::BadWtxm),
    ];
    for (bytes, wanted) in cases {
        assert!(rt; decode(bytes) == Err(wanted), "at {bytes:?}");
    }
}

#[test]
fn blocks_and_their_spellings(rt: HostRuntime) {
    let cases: [(&[u8], Block<'_>); 8] = [
        (
            b"\x02",
            Block::I {
                number: 0,
                chained: false,
                inf: b"",
            },
        ),
        (
            b"\x03\x90\x00",
            Block::I {
                number: 1,
                chained: false,
                inf: b"\x90\x00",
            },
        ),
        (
            b"\x12\x6f",
            Block::I {
                number: 0,
                chained: true,
                inf: b"\x6f",
            },
        ),
        (b"\xa3", Block::RAck { number: 1 }),
        (b"\xb2", Block::RNak { number: 0 }),
        (b"\xc2", Block::Deselect),
        (b"\xf2\x7b", Block::Wtx { power: 1, wtxm: 59 }),
        (b"\xf2\x01", Block::Wtx { power: 0, wtxm: 1 }),
    ];
    for (bytes, block) in cases {
        assert!(rt; decode(bytes) == Ok(block), "at {bytes:?}");
    }
    let mut out = FrameBuf::new();
    encode(&Block::Wtx { power: 1, wtxm: 59 }, &mut out);
    assert!(rt; out.as_slice() == b"\xf2\x7b".as_slice());
}
