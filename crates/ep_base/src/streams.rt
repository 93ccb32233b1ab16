//! The bytes that come in and go out.
ghost use Rattle.std.specs.Prelude.{◌≡◌, ◌<◌, ◌≤◌, ℕ, List, length, IfOk, IsErrOf, OnOk, OnErr, IsErr, IfSome, is_some};
ghost use Rattle.std.specs.declared.option.Option.{Option};
ghost use Rattle.std.specs.Io.KnownBytes.{Appends, Consumes, IsAtEnd};
ghost use Rattle.ep_base.specs.Streams.Causes.{HasCause};
ghost use Rattle.ep_base.specs.Streams.Io.{Pulls, GotWithin, Pushes, TookWithin, AppendsPrefix, GaveTooMuch, Takes};

use crate::limits::PIECE;
use std::alloc::Global;

/// Memory that was asked for isn't there.
#[derive(Clone, Copy, Debug, PartialEq, Eq)]
pub struct NoMemory;

/// What one pull gives.
#[derive(Clone, Copy, Debug, PartialEq, Eq)]
pub enum Pulled {
    /// So many bytes, 1 to the length asked for, stand at the slice's front.
    Got(usize),
    /// No byte is left.
    End,
    /// The source has failed, and its count of faults has risen.
    Failed,
}

/// A sink didn't take a piece.
#[derive(Clone, Copy, Debug, PartialEq, Eq)]
pub struct SinkFailed;

/// Why an input wasn't read whole.
#[derive(Clone, Copy, Debug, PartialEq, Eq)]
pub enum ReadEnd {
    /// A pull has failed.
    ReadFault,
    /// More bytes came than the limit allows.
    TooLong,
    /// No memory was left for the bytes.
    NoMemory,
}

/// Bytes that come in.
pub trait Source {
    /// The bytes left, where they are told.
    ghost left: { Self → Option (List ℕ) };

    /// How often it has failed.
    ghost faults: { Self → ℕ };

    /// Puts the next bytes at the front of a slice that isn't empty.
    fn pull(&mut self, into: &mut [u8]) -> Pulled
        requires { 0 < length into.old }
        ensures count { GotWithin result (length into.new) }
        ensures bytes { Pulls (left self.old) (left self.new) result into.new }
        ensures cause { HasCause (faults self.old) (faults self.new) (result ≡ Pulled.Failed) };
}

/// Bytes that go out. A sink tells the bytes written always or never.
pub trait Sink {
    /// The bytes written, where they are told.
    ghost written: { Self → Option (List ℕ) };

    /// How often it has failed.
    ghost faults: { Self → ℕ };

    /// Takes some of the piece's first bytes, at least one where it isn't empty, and says how many.
    ///
    /// Errors: nothing was taken, and the count of faults has risen.
    fn push(&mut self, piece: &[u8]) -> Result<usize, SinkFailed>
        ensures count { TookWithin result (length piece.now) }
        ensures bytes { Pushes (written self.old) (written self.new) result piece.now }
        ensures told { is_some (written self.new) ≡ is_some (written self.old) }
        ensures cause { HasCause (faults self.old) (faults self.new) (IsErr result) };
}

/// Reads all that is left, at most `limit` bytes. What is taken from the source, also before an error, is a first part of
/// what it had left. It asks for `PIECE` bytes at a time.
///
/// Errors: `TooLong` exactly where more than `limit` bytes were given, with no pull after them; `ReadFault` only where a pull
/// failed and the count of faults rose; `NoMemory`.
pub fn read_all<S: Source>(alloc: Global, src: &mut S, limit: usize) -> Result<Vec<u8>, ReadEnd>
    ensures ok { IfOk result (λ v. Consumes (S.left src.old) (S.left src.new) v.items) }
    ensures whole { OnOk result (IsAtEnd (S.left src.new)) }
    ensures within { IfOk result (λ v. length v.items ≤ limit) }
    ensures short_enough { OnOk result (IfSome (S.left src.old) (λ bytes. length bytes ≤ limit)) }
    ensures too_long { IfSome (S.left src.old) (λ bytes. IsErrOf result ReadEnd.TooLong → limit < length bytes) }
    ensures takes { Takes limit (S.left src.old) (S.left src.new) (GaveTooMuch result) }
    ensures cause { HasCause (S.faults src.old) (S.faults src.new) (IsErrOf result ReadEnd.ReadFault) }
{
    let mut bytes = Vec::new(alloc);
    let mut piece = [0u8; PIECE];
    loop {
        match src.pull(&mut piece) {
            Pulled::End => return Ok(bytes),
            Pulled::Failed => return Err(ReadEnd::ReadFault),
            Pulled::Got(count) => {
                if count > limit - bytes.len() {
                    return Err(ReadEnd::TooLong);
                }
                if bytes.extend_from_slice(&piece[..count]).is_err() {
                    return Err(ReadEnd::NoMemory);
                }
            }
        }
    }
}

/// Pushes a piece whole, and the rest again where a push took less.
///
/// Errors: a push has failed; a prefix of the piece was written.
pub fn push_all<K: Sink>(sink: &mut K, piece: &[u8]) -> Result<(), SinkFailed>
    ensures ok { OnOk result (Appends (K.written sink.old) (K.written sink.new) piece.now) }
    ensures told { is_some (K.written sink.new) ≡ is_some (K.written sink.old) }
    ensures err { OnErr result (AppendsPrefix (K.written sink.old) (K.written sink.new) piece.now) }
    ensures cause { HasCause (K.faults sink.old) (K.faults sink.new) (IsErr result) }
{
    let mut rest = piece;
    while !rest.is_empty() {
        let count = sink.push(rest)?;
        let (_, after) = rest.split_at(count);
        rest = after;
    }
    Ok(())
}
