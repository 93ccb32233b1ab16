//! What several lanes hold.
ghost use Rattle.std.specs.Prelude.{◌≡◌, ◌≤◌, ◌&&◌, vec_len};
ghost use Rattle.ep_base.specs.declared.limits.TheConstants.{LANES};
ghost use Rattle.entry_session.specs.Turns.{view_of, is_open};

use crate::exchange::Exchange;
use entry_session::Session;
use kernel_port::Kernels;
use rf_frame::Ask;

/// One lane: its session, whether a transaction is open, what that asks next, and whether the lane is live.
#[derive(Drop)]
pub(crate) struct Lane<K: Kernels> {
    pub(crate) session: Session<K>,
    pub(crate) opened: bool,
    pub(crate) ask: Ask,
    pub(crate) live: bool,
    ghost asking: { opened ≡ (live && is_open (view_of K.state K.is_open K.is_fresh session)) },
}

/// Several lanes, numbered from 1, each with a session that runs its transactions with kernels of one type. One lane makes
/// one exchange per turn.
#[derive(Drop)]
pub struct Lanes<K: Kernels> {
    pub(crate) lanes: Vec<Lane<K>>,
    pub(crate) turns: Vec<u8>,
    // How much of the turn list is past.
    pub(crate) past: usize,
    // The lane that was taken last after the turn list's end, and 0 before that.
    pub(crate) taken: u8,
    // Whether the last turn made an exchange, and that one.
    pub(crate) told: bool,
    pub(crate) last: Exchange,
    ghost few: { vec_len lanes ≤ LANES },
    ghost within: { taken ≤ vec_len lanes },
}
