//! Commands over a link, and over a transport whose card is presented.
ghost use Rattle.std.specs.Prelude.{◌≡◌, true};
ghost use Rattle.block_reader.specs.Stands.{held, is_resting};

use apdu::{Command, Response};
use block_reader::ReaderEnd;
use link::{LinkEnd, Presented, Transport, carry};
use rf_frame::Medium;
use std::process::Abort;

/// The response to a command over a link, which rests again.
pub(crate) fn carried<M: Medium>(
    rt: &impl Abort,
    end: &mut ReaderEnd,
    medium: &mut M,
    command: &Command,
) -> Response
    requires { is_resting (held end.old) ≡ true }
    ensures { is_resting (held end.new) ≡ true }
{
    let Ok(response) = carry(end, medium, command) else {
        panic!(rt; "no response");
    };
    response
}

/// How a link failed that was to carry a command.
pub(crate) fn failed<M: Medium>(
    rt: &impl Abort,
    end: &mut ReaderEnd,
    medium: &mut M,
    command: &Command,
) -> LinkEnd
    requires { is_resting (held end.old) ≡ true }
{
    let Err(failed) = carry(end, medium, command) else {
        panic!(rt; "a response");
    };
    failed
}

/// The card that comes.
pub(crate) fn presented<T: Transport>(rt: &impl Abort, transport: &mut T) -> Presented
    ensures { T.presented transport.new ≡ true }
{
    let Ok(presented) = transport.present() else {
        panic!(rt; "no card");
    };
    presented
}

/// The response of the card that is presented.
pub(crate) fn answered<T: Transport>(
    rt: &impl Abort,
    transport: &mut T,
    command: &Command,
) -> Response
    requires { T.presented transport.old ≡ true }
    ensures { T.presented transport.new ≡ true }
{
    let Ok(response) = transport.transact(command) else {
        panic!(rt; "no response");
    };
    response
}

/// How a transport's link failed that was to carry a command.
pub(crate) fn lost<T: Transport>(rt: &impl Abort, transport: &mut T, command: &Command) -> LinkEnd
    requires { T.presented transport.old ≡ true }
{
    let Err(failed) = transport.transact(command) else {
        panic!(rt; "a response");
    };
    failed
}
