//! The parts of a command, as they were sent.
ghost use Rattle.std.specs.Prelude.{◌≡◌, ◌≤◌, ◌+◌, ◌++◌, true, [], length, nat_lt, nat_le, ◌&&◌, if◌then◌else◌, Some, None};
ghost use Rattle.ep_base.specs.Cards.Apdu.{is_command as command_test};
ghost use Rattle.ep_base.specs.declared.limits.TheConstants.{COMMAND, INF};
ghost use Rattle.trace_check.specs.Commands.{is_before as before_test, may_go_on as goes_on};
ghost use Rattle.trace_check.specs.Meaning.{inf_of};
ghost use Rattle.trace_check.specs.Watch.{is_part as part_test};

use crate::link::Inf;
use apdu::Command;
use arrayvec::ArrayVec;
use ep_base::{Buf, COMMAND, INF};
use std::marker::Model;

/// The bytes of a command that its card took.
#[derive(Drop)]
pub(crate) struct Begun {
    bytes: ArrayVec<u8, COMMAND>,
}

impl Model for Begun {
    ghost use Rattle.std.specs.Prelude.{List, ℕ};

    ghost Value = { List ℕ };

    ghost view = { λ b. b.bytes.items };
}

/// The bytes that a card took, the part that was sent after them, and whether more parts follow.
#[derive(Drop)]
pub(crate) struct Parts {
    sent: Begun,
    part: Buf<INF>,
    chained: bool,
}

impl Model for Parts {
    ghost use Rattle.std.specs.Prelude.{◌≤◌, ◌+◌, length};
    ghost use Rattle.ep_base.specs.declared.limits.TheConstants.{COMMAND};
    ghost use Rattle.trace_check.specs.Held.{Parts};

    ghost Value = { Parts };

    ghost view = { λ p. record { sent = p.sent; part = p.part.items; chained = p.chained } };

    ghost invariant = { λ p. length p.sent + length p.part.items ≤ COMMAND };
}

/// Whether a command of `most` bytes can be longer than these.
fn is_before(len: usize, most: usize) -> bool
    ensures { result ≡ before_test len most }
{
    len < most && most <= COMMAND
}

/// Whether some command begins with these bytes and is longer.
#[tactic(auto, unfolding(crate::specs::Commands::may_go_on))]
fn may_go_on(bytes: &[u8]) -> bool
    ensures { result ≡ goes_on bytes.now }
{
    if bytes.len() < 5 {
        return true;
    }
    let count = usize::from(bytes[4]);
    count > 0 && (is_before(bytes.len(), 5 + count) || is_before(bytes.len(), 6 + count))
}

/// Whether these bytes are a command.
#[tactic(auto, unfolding(ep_base::specs::Cards::Apdu::is_command))]
fn is_command(bytes: &[u8]) -> bool
    ensures { result ≡ command_test bytes.now }
{
    Command::of(bytes).is_ok()
}

impl Begun {
    /// No byte.
    pub(crate) fn new() -> Begun
        ensures { result ≡ [] }
    {
        Begun {
            bytes: ArrayVec::new(),
        }
    }

    /// The same bytes with a part after them, unless these are more than a command has.
    fn with(&self, part: &[u8]) -> Option<Begun>
        ensures { result ≡ (if nat_le (length (self.now ++ part.now)) COMMAND then Some (self.now ++ part.now) else None) }
    {
        if part.len() > COMMAND - self.bytes.len() {
            return None;
        }
        let mut bytes = ArrayVec::new();
        bytes.try_extend_from_slice(self.bytes.as_slice()).unwrap();
        bytes.try_extend_from_slice(part).unwrap();
        Some(Begun { bytes })
    }

    /// Whether some command begins with these bytes and a part, where each of its parts but the last has `size` bytes.
    #[tactic(auto, unfolding(crate::specs::Commands::may_go_on, ep_base::specs::Cards::Apdu::is_command))]
    fn is_part(&self, size: usize, inf: &Inf<'_>) -> bool
        ensures test { result ≡ part_test size self.now (inf_of inf.now) }
        ensures room { result ≡ true → (length self.now + length inf.now.bytes.now ≤ COMMAND) × (length inf.now.bytes.now ≤ size) }
    {
        let Some(whole) = self.with(inf.bytes) else {
            return false;
        };
        if inf.chained {
            inf.bytes.len() == size && may_go_on(whole.bytes.as_slice())
        } else {
            !inf.bytes.is_empty() && inf.bytes.len() <= size && is_command(whole.bytes.as_slice())
        }
    }

    /// The next part, if some command goes on with it.
    pub(crate) fn next(self, size: usize, inf: &Inf<'_>) -> Option<Parts>
        requires { size ≤ INF }
        ensures { result ≡ (if part_test size self (inf_of inf.now) then Some (record { sent = self; part = inf.now.bytes.now; chained = inf.now.chained }) else None) }
    {
        if !self.is_part(size, inf) {
            return None;
        }
        let mut part = ArrayVec::new();
        part.try_extend_from_slice(inf.bytes).unwrap();
        Some(Parts {
            sent: self,
            part,
            chained: inf.chained,
        })
    }
}

impl Parts {
    /// The part.
    pub(crate) fn part(&self) -> &[u8]
        ensures part { result.now ≡ self.now.part }
        ensures most { length result.now ≤ INF }
    {
        self.part.as_slice()
    }

    /// Whether more parts follow.
    pub(crate) fn is_chained(&self) -> bool
        ensures { result ≡ self.now.chained }
    {
        self.chained
    }

    /// The bytes that the card took, once it took the part.
    pub(crate) fn taken(self) -> Begun
        ensures { result ≡ self.sent ++ self.part }
    {
        let Parts { mut sent, part, .. } = self;
        sent.bytes.try_extend_from_slice(part.as_slice()).unwrap();
        sent
    }
}
