//! What a session holds.
ghost use Rattle.std.specs.Prelude.{◌≡◌, ◌<◌, None};
ghost use Rattle.session_phases.specs.Room.{HasRoom};

use pre_processing::Prepared;
use session_phases::{Phase, Presentation};

/// What is held of a transaction between two exchanges.
#[derive(Drop)]
pub(crate) struct Task<K> {
    pub(crate) prepared: Prepared,
    pub(crate) kernels: K,
    pub(crate) fsdi: u8,
    pub(crate) phase: Phase,
    ghost code: { fsdi < 16 },
}

/// Drops what is held of a transaction. This stands apart, since what is written here is as large as a task.
#[inline(never)]
pub(crate) fn forget<K: Drop>(task: &mut Option<Task<K>>)
    ensures { task.new ≡ None }
{
    *task = None;
}

/// What runs transactions with kernels of one type: at once, or an exchange at a time.
#[derive(Drop)]
pub struct Session<K> {
    pub(crate) presentation: Presentation,
    pub(crate) task: Option<Task<K>>,
    ghost room: { HasRoom presentation.arena.contents },
}
