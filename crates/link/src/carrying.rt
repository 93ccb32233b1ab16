//! One command over an open link: what the reader's end asks is sent over a medium until the command ends.
ghost use Rattle.std.specs.Prelude.{◌≡◌, true, is_ok, Bool, IsErrOf};
ghost use Rattle.ep_base.specs.Streams.Causes.{HasCause};
ghost use Rattle.ep_base.specs.Link.ReaderEnd.{Reader, begin};
ghost use Rattle.ep_base.specs.Link.Carry.{ActsAs, AtRest, OfLink};
ghost use Rattle.ep_base.specs.Link.Wire.{Wire};
ghost use Rattle.block_reader.specs.Stands.{held, is_resting, Rests};
ghost use Rattle.link.specs.Carried.{ByWire, Carried};

use crate::LinkEnd;
use apdu::{Command, Response};
use block_reader::{Next, ReaderEnd};
use rf_frame::Medium;

/// Carries a command over an open link, from a reader's end that rests: sends what the end asks, and lets it hear what
/// the medium gives, until the command has its response or the link has failed.
///
/// Errors: `Spent` and `Breach` by the reader's table (ISO/IEC 14443-4), `Device` where the medium failed.
pub fn carry<M: Medium>(
    end: &mut ReaderEnd,
    medium: &mut M,
    command: &Command,
) -> Result<Response, LinkEnd>
    requires resting { is_resting (held end.old) ≡ true }
    ensures by_rules { (r : Reader) → Rests (held end.old) r →
        Carried M.steps (held end.old).set (begin (held end.old).set.frames.card command.now r) (M.state medium.old) result (held end.new) (M.state medium.new) }
    ensures once { (good : M.State → Bool) (shown : M.State → Wire) (r : Reader) → ActsAs M.steps (held end.old).set good shown →
        good (M.state medium.old) ≡ true → OfLink (held end.old).set (shown (M.state medium.old)) →
        AtRest r (shown (M.state medium.old)).party.card → Rests (held end.old) r →
        ByWire result (held end.new) (shown (M.state medium.old)) command.now (shown (M.state medium.new)) × (good (M.state medium.new) ≡ true) }
    ensures setting { (held end.new).set ≡ (held end.old).set }
    ensures resting { is_resting (held end.new) ≡ is_ok result }
    ensures cause { HasCause (M.faults medium.old) (M.faults medium.new) (IsErrOf result LinkEnd.Device) }
{
    let mut ask = end.begin(command);
    loop {
        let Ok(heard) = medium.send(ask.wave, &ask.frame, ask.wait) else {
            return Err(LinkEnd::Device);
        };
        match end.heard(&heard) {
            Next::Ask(next) => ask = next,
            Next::Done(response) => return Ok(response),
            Next::Failed(failed) => return Err(failed),
        }
    }
}
