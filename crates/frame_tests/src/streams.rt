//! Sources and sinks at work: what no clause says is that memory and room can be had.
ghost use Rattle.std.specs.Prelude.{None};
ghost use Rattle.std.specs.declared.option.Option.{Option};

use ep_base::{
    MemorySink, MemorySource, ReadEnd, Sink, SinkFailed, Source, StdSink, StdSource, push_all,
    read_all,
};
use std::io::Cursor;
use std::test::Fail;

// A sink that takes one byte at a time, and fails after some.
#[derive(Drop)]
struct Slow {
    left: u64,
    faults: u64,
}

impl Sink for Slow {
    ghost written = { λ _. Option.None };

    ghost faults = { λ s. s.faults };

    fn push(&mut self, piece: &[u8]) -> Result<usize, SinkFailed> {
        if self.left == 0 {
            self.faults = self.faults.saturating_add(1);
            return Err(SinkFailed);
        }
        self.left -= 1;
        Ok(piece.len().min(1))
    }
}

#[test]
fn reads_to_the_end_or_says_why_not(rt: HostRuntime) -> Result<(), Fail> {
    let cases: [(usize, usize, u32, Option<ReadEnd>); 5] = [
        (3000, 3000, 9, None),
        (0, 0, 9, None),
        (3000, 2999, 9, Some(ReadEnd::TooLong)),
        (3000, 3000, 2, Some(ReadEnd::ReadFault)),
        (3000, 10, 1, Some(ReadEnd::ReadFault)),
    ];
    for (count, limit, fails, wanted) in cases {
        let bytes = vec![in rt.alloc(); 7u8; count]?;
        let fails = vec![in rt.alloc(); fails]?;
        let mut source = MemorySource::new(bytes, fails);
        match read_all(rt.alloc(), &mut source, limit) {
            Ok(bytes) => assert!(rt; (bytes.len(), wanted) == (count, None)),
            Err(end) => assert!(rt; Some(end) == wanted, "{count} of {limit}"),
        }
    }
    Ok(())
}

#[test]
fn pushes_all_or_a_prefix(rt: HostRuntime) -> Result<(), Fail> {
    let fails = vec![in rt.alloc(); 2u32]?;
    let mut sink = MemorySink::new(rt.alloc(), 8, fails).map_err(|_| "room")?;
    assert!(rt; push_all(&mut sink, b"one") == Ok(()));
    assert!(rt; push_all(&mut sink, b"two") == Err(SinkFailed));
    assert!(rt; push_all(&mut sink, b"three") == Ok(()));
    assert!(rt; push_all(&mut sink, b"4") == Err(SinkFailed));
    assert!(rt; sink.written() == b"onethree".as_slice());
    let mut slow = Slow { left: 4, faults: 0 };
    assert!(rt; push_all(&mut slow, b"four") == Ok(()));
    assert!(rt; push_all(&mut slow, b"more") == Err(SinkFailed));
    Ok(())
}

#[test]
fn reads_and_writes_over_std(rt: HostRuntime) -> Result<(), Fail> {
    let mut source = StdSource::new(Cursor::new(b"bytes of a reader".as_slice()));
    let bytes = read_all(rt.alloc(), &mut source, 17).map_err(|_| "read")?;
    assert!(rt; bytes.as_slice() == b"bytes of a reader".as_slice());
    let mut room = [0u8; 5];
    let mut sink = StdSink::new(Cursor::new(room.as_mut_slice()));
    assert!(rt; sink.push(b"bytes") == Ok(5));
    assert!(rt; sink.push(b"") == Ok(0));
    assert!(rt; sink.push(b"more") == Err(SinkFailed));
    Ok(())
}
