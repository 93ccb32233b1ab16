//! One lane.
ghost use Rattle.std.specs.Prelude.{◌≡◌, ◌<◌, ◌++◌, ℕ, true, false, None, Some, IfOk, IfErr, OnErr, IsErr};
ghost use Rattle.arrayvec.specs.ArrayVec.{array_vec_len};
ghost use Rattle.ep_base.specs.Streams.Causes.{HasCause};
ghost use Rattle.ep_rules.specs.EntryPoint.Transaction.{transaction};
ghost use Rattle.ep_base.specs.Air.Heard.{Ask as AskData};
ghost use Rattle.ep_rules.specs.EntryPoint.Talk.{Talk};
ghost use Rattle.ep_claim.specs.Lanes.Standing.{Standing, events_of, started};
ghost use Rattle.entry_session.specs.Turns.{is_ask};
ghost use Rattle.rf_frame.specs.Meaning.{heard_of};
ghost use Rattle.session_phases.specs.Told.{told_by};
ghost use Rattle.ep_lanes.specs.Causes.{ShowsBeginCause, ShowsCause};
ghost use Rattle.ep_lanes.specs.Lanes.{lane_held, made_of, new_lane};
ghost use Rattle.ep_lanes.specs.Turns.{Makes, Fails, Stands, Tells};
ghost use Rattle.ep_lanes.specs.Saying.{turned_by, is_goes};

use crate::exchange::{Exchange, Turned, nothing};
use crate::holding::Lane;
use crate::probe::Probe;
use entry_session::{End, Session};
use ep_base::NoMemory;
use kernel_port::{EventList, Kernels};
use pre_processing::Prepared;
use rf_frame::{Medium, RfFailed, exchange};
use std::alloc::Global;

/// What follows in a lane whose transaction has ended so, or goes on.
fn turned(end: Option<End>) -> Turned
    ensures { result ≡ turned_by end }
{
    match end {
        None => Turned::Goes,
        Some(end) => Turned::Ended(end),
    }
}

impl<K: Kernels + Drop> Lane<K> {
    /// A live lane before its first transaction.
    ///
    /// Errors: `NoMemory`.
    pub(crate) fn open(alloc: Global) -> Result<Lane<K>, NoMemory>
        ensures { IfOk result (λ l. lane_held K.state K.is_open K.is_fresh l ≡ new_lane) }
    {
        Ok(Lane {
            session: Session::open(alloc)?,
            opened: false,
            ask: nothing(),
            live: true,
        })
    }

    /// Begins a transaction, as its session does.
    pub(crate) fn begin(
        &mut self,
        prepared: &Prepared,
        kernels: K,
        fsdi: u8,
        events: &mut EventList,
    ) -> Turned
        requires live { self.old.live ≡ true }
        requires closed { self.old.opened ≡ false }
        requires code { fsdi < 16 }
        requires empty { array_vec_len events.old ≡ 0 }
        ensures stands { let talk = transaction K.steps prepared.now.txn_type prepared.now.amount prepared.now.list (K.state kernels) in
            Stands K.steps (lane_held K.state K.is_open K.is_fresh self.new) talk fsdi (started talk) }
        ensures events { let talk = transaction K.steps prepared.now.txn_type prepared.now.amount prepared.now.list (K.state kernels) in
            told_by events.new.items ≡ events_of talk (started talk) }
        ensures tells { let talk = transaction K.steps prepared.now.txn_type prepared.now.amount prepared.now.list (K.state kernels) in
            Tells result fsdi talk (started talk) }
        ensures goes { self.new.opened ≡ is_goes result }
        ensures cause { ShowsBeginCause result (told_by events.new.items) }
        ensures live { self.new.live ≡ true }
    {
        let ask = &mut self.ask;
        let end = self
            .session
            .start_into(prepared, kernels, fsdi, events, ask);
        self.opened = end.is_none();
        turned(end)
    }

    /// Makes one exchange in the lane with this number, and tells it in `made`. Where the medium fails the lane has ended.
    ///
    /// Errors: the medium failed.
    pub(crate) fn exchange<M: Medium, P: Probe>(
        &mut self,
        lane: u8,
        medium: &mut M,
        probe: &mut P,
        made: &mut Exchange,
        events: &mut EventList,
    ) -> Result<Turned, RfFailed>
        requires opened { self.old.opened ≡ true }
        requires empty { array_vec_len events.old ≡ 0 }
        ensures makes { IfOk result (λ r. Makes K.steps M.steps P.steps (lane_held K.state K.is_open K.is_fresh self.old) (M.state medium.old) (P.state probe.old)
            (made_of made.new) r (told_by events.new.items) (lane_held K.state K.is_open K.is_fresh self.new) (M.state medium.new) (P.state probe.new)) }
        ensures goes { IfOk result (λ r. self.new.opened ≡ is_goes r) }
        ensures number { made.new.lane ≡ lane }
        ensures cause_of_end { IfOk result (λ r. ShowsCause K.steps (lane_held K.state K.is_open K.is_fresh self.old) (heard_of made.new.heard) r) }
        ensures fails { OnErr result (Fails M.steps (lane_held K.state K.is_open K.is_fresh self.old) (M.state medium.old)
            (lane_held K.state K.is_open K.is_fresh self.new) (M.state medium.new)) }
        ensures same_probe { OnErr result (P.state probe.new ≡ P.state probe.old) }
        ensures no_event { OnErr result (array_vec_len events.new ≡ 0) }
        ensures cause { HasCause (M.faults medium.old) (M.faults medium.new) (IsErr result) }
    {
        made.lane = lane;
        let Ok(given) = exchange(medium, &self.ask) else {
            self.opened = false;
            self.live = false;
            return Err(RfFailed);
        };
        made.heard = probe.hear(lane, &self.ask, &given);
        made.ask = self.ask.copy();
        let ask = &mut self.ask;
        let end = self.session.advance_into(&made.heard, events, ask);
        self.opened = end.is_none();
        Ok(turned(end))
    }
}
