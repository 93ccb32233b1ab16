//! How a replay ended that isn't matched.
ghost use Rattle.std.specs.Prelude.{◌≡◌};

use trace_io::{Mismatch, Shown};

/// Why a replay isn't matched, or what kept it from its end.
#[derive(Debug, PartialEq, Eq, Drop)]
pub enum ReplayEnd {
    /// The lanes and the trace differ first here.
    Mismatch(Mismatch),
    /// The sink of the lines has failed.
    SinkFailed,
}

/// The same mismatch again. This takes no memory.
pub(crate) fn copy_mismatch(mismatch: &Mismatch) -> Mismatch
    ensures { result ≡ mismatch.now }
{
    Mismatch {
        place: mismatch.place,
        wanted: copy_shown(&mismatch.wanted),
        got: copy_shown(&mismatch.got),
    }
}

// What was sent, if anything was.
fn copy_shown(shown: &Option<Shown>) -> Option<Shown>
    ensures { result ≡ shown.now }
{
    match shown {
        Some(sent) => Some(sent.copy()),
        None => None,
    }
}
