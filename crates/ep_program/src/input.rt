//! The input.
ghost use Rattle.std.specs.Prelude.{◌≡◌, IfOk, IfErr, IsErrOf, MatchResult, OnOk};
ghost use Rattle.std.specs.Io.KnownBytes.{IsAtEnd};
ghost use Rattle.ep_base.specs.Streams.Causes.{HasCause};
ghost use Rattle.ep_base.specs.Streams.Io.{Takes};
ghost use Rattle.ep_program.specs.Input.{IsTooLong, Opens, Refuses};

use crate::status::Status;
use ep_base::{INPUT, ReadEnd, Source, read_all};
use scenario::{DocEnd, Scenario};
use std::alloc::Global;

/// All that comes in, and what it says. `TooLong` comes exactly where more than `INPUT` bytes were given.
pub fn read<S: Source>(alloc: Global, input: &mut S) -> Result<Scenario, Status>
    ensures ok { IfOk result (Opens (S.left input.old)) }
    ensures err { IfErr result (Refuses (S.left input.old)) }
    ensures whole { OnOk result (IsAtEnd (S.left input.new)) }
    ensures given { MatchResult result
        (λ _. Takes INPUT (S.left input.old) (S.left input.new) ⊥)
        (λ status. Takes INPUT (S.left input.old) (S.left input.new) (IsTooLong status)) }
    ensures cause { HasCause (S.faults input.old) (S.faults input.new) (IsErrOf result Status.ReadFault) }
{
    match read_all(alloc, input, INPUT) {
        Ok(bytes) => match Scenario::of_bytes(alloc, &bytes) {
            Ok(scenario) => Ok(scenario),
            Err(DocEnd::NotToml) => Err(Status::NotToml),
            Err(DocEnd::Fault(fault)) => Err(Status::BadDocument(fault)),
            Err(DocEnd::NoMemory) => Err(Status::NoMemory),
        },
        Err(ReadEnd::ReadFault) => Err(Status::ReadFault),
        Err(ReadEnd::TooLong) => Err(Status::TooLong),
        Err(ReadEnd::NoMemory) => Err(Status::NoMemory),
    }
}
