//! The edge to readers and writers of std, which tell no content.
ghost use Rattle.std.specs.Prelude.{◌≡◌, ℕ, None};
ghost use Rattle.std.specs.declared.option.Option.{Option};

use crate::{Pulled, Sink, SinkFailed, Source};
use std::io::{Read, Write};

/// A reader of std as a source: each pull makes one read. It tells no bytes, and counts each error.
#[derive(Drop)]
pub struct StdSource<R: Read> {
    reader: R,
    faults: u64,
}

impl<R: Read> StdSource<R> {
    /// A source over this reader.
    pub fn new(reader: R) -> StdSource<R> {
        StdSource { reader, faults: 0 }
    }
}

impl<R: Read> Source for StdSource<R> {
    ghost left = { λ _. Option.None };

    ghost faults = { λ s. s.faults };

    fn pull(&mut self, into: &mut [u8]) -> Pulled {
        match self.reader.read(into) {
            Ok(0) => Pulled::End,
            Ok(count) => Pulled::Got(count),
            Err(_) => {
                self.faults = self.faults.saturating_add(1);
                Pulled::Failed
            }
        }
    }
}

/// A writer of std as a sink: each push makes one write. It tells no bytes, and counts each error and each write of no bytes.
#[derive(Drop)]
pub struct StdSink<W: Write> {
    writer: W,
    faults: u64,
}

impl<W: Write> StdSink<W> {
    /// A sink over this writer.
    pub fn new(writer: W) -> StdSink<W> {
        StdSink { writer, faults: 0 }
    }
}

impl<W: Write> Sink for StdSink<W> {
    ghost written = { λ _. Option.None };

    ghost faults = { λ s. s.faults };

    fn push(&mut self, piece: &[u8]) -> Result<usize, SinkFailed> {
        if piece.is_empty() {
            return Ok(0);
        }
        match self.writer.write(piece) {
            Ok(0) | Err(_) => {
                self.faults = self.faults.saturating_add(1);
                Err(SinkFailed)
            }
            Ok(count) => Ok(count),
        }
    }
}
