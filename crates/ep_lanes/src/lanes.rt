//! All lanes together.
ghost use Rattle.std.specs.Prelude.{◌≡◌, ◌≢◌, ◌↔◌, ◌<◌, ◌≤◌, ℕ, true, false, Some, None, IfOk, IfSome, IsNone, OnErr, IsErr, option_map};
ghost use Rattle.arrayvec.specs.ArrayVec.{array_vec_len};
ghost use Rattle.ep_base.specs.Streams.Causes.{HasCause};
ghost use Rattle.ep_rules.specs.EntryPoint.Transaction.{transaction};
ghost use Rattle.ep_claim.specs.Lanes.Standing.{events_of, started};
ghost use Rattle.session_phases.specs.Told.{told_by};
ghost use Rattle.ep_lanes.specs.Causes.{ShowsBeginCause, TellsCause};
ghost use Rattle.ep_lanes.specs.Lanes.{count_of, has_open, is_live, lane_of, lanes_of, made_of, new_lanes, next_lane, no_lane, next_of, order_after};
ghost use Rattle.ep_lanes.specs.Saying.{is_goes};
ghost use Rattle.ep_lanes.specs.Turns.{Fails, Stands, Tells, Turns};

use crate::exchange::{Exchange, Turned};
use crate::holding::{Lane, Lanes};
use crate::probe::Probe;
use ep_base::{LANES, NoMemory};
use kernel_port::{EventList, Kernels};
use pre_processing::Prepared;
use rf_frame::{Medium, RfFailed};
use std::alloc::Global;

impl<K: Kernels + Drop> Lanes<K> {
    /// So many lanes, at most 8, numbered from 1, all of them live and without a transaction. The turn list says which
    /// lanes make the first exchanges; numbers that no lane has are skipped.
    ///
    /// Errors: `NoMemory`.
    pub fn open(alloc: Global, count: u8, turns: Vec<u8>) -> Result<Lanes<K>, NoMemory>
        requires { count ≤ LANES }
        ensures { IfOk result (λ l. lanes_of K.state K.is_open K.is_fresh l ≡ new_lanes count turns.items) }
    {
        let mut lanes = Vec::new(alloc);
        for _ in 0..count {
            if lanes.push(Lane::open(alloc)?).is_err() {
                return Err(NoMemory);
            }
        }
        Ok(Lanes {
            lanes,
            turns,
            past: 0,
            taken: 0,
            told: false,
            last: Exchange::none(),
        })
    }

    /// Begins a transaction in a live lane that has none open, after Pre-Processing, with a reader of this FSDI, below 16.
    /// The events up to its first exchange are put into `events`, which is empty before. It says whether an exchange is
    /// asked, or how the transaction ended without one, which comes only after an outcome. All else stays.
    pub fn begin(
        &mut self,
        lane: u8,
        prepared: &Prepared,
        kernels: K,
        fsdi: u8,
        events: &mut EventList,
    ) -> Turned
        requires live { is_live (lanes_of K.state K.is_open K.is_fresh self.old) lane ≡ true }
        requires closed { has_open (lanes_of K.state K.is_open K.is_fresh self.old) lane ≡ false }
        requires code { fsdi < 16 }
        requires empty { array_vec_len events.old ≡ 0 }
        ensures stands { let talk = transaction K.steps prepared.now.txn_type prepared.now.amount prepared.now.list (K.state kernels) in
            Stands K.steps (lane_of (lanes_of K.state K.is_open K.is_fresh self.new) lane) talk fsdi (started talk) }
        ensures events { let talk = transaction K.steps prepared.now.txn_type prepared.now.amount prepared.now.list (K.state kernels) in
            told_by events.new.items ≡ events_of talk (started talk) }
        ensures tells { let talk = transaction K.steps prepared.now.txn_type prepared.now.amount prepared.now.list (K.state kernels) in
            Tells result fsdi talk (started talk) }
        ensures goes { has_open (lanes_of K.state K.is_open K.is_fresh self.new) lane ≡ is_goes result }
        ensures cause { ShowsBeginCause result (told_by events.new.items) }
        ensures live { is_live (lanes_of K.state K.is_open K.is_fresh self.new) lane ≡ true }
        ensures others { (k : ℕ) → k ≢ lane →
            lane_of (lanes_of K.state K.is_open K.is_fresh self.new) k ≡ lane_of (lanes_of K.state K.is_open K.is_fresh self.old) k }
        ensures count { count_of (lanes_of K.state K.is_open K.is_fresh self.new) ≡ count_of (lanes_of K.state K.is_open K.is_fresh self.old) }
        ensures order { (lanes_of K.state K.is_open K.is_fresh self.new).order ≡ (lanes_of K.state K.is_open K.is_fresh self.old).order }
        ensures last { (lanes_of K.state K.is_open K.is_fresh self.new).last ≡ (lanes_of K.state K.is_open K.is_fresh self.old).last }
    {
        let held = &mut self.lanes[usize::from(lane) - 1];
        held.begin(prepared, kernels, fsdi, events)
    }

    /// Whether a transaction is open in this lane. In a lane that isn't there none is.
    pub fn has_open(&self, lane: u8) -> bool
        ensures { result ≡ has_open (lanes_of K.state K.is_open K.is_fresh self.now) lane }
    {
        if lane == 0 {
            return false;
        }
        match self.lanes.get(usize::from(lane) - 1) {
            Some(held) => held.opened,
            None => false,
        }
    }

    /// The lane that makes the next exchange: the turn list's next live lane, and after the list's end the live lanes in
    /// rising order, again and again. `None` exactly where no lane is live.
    pub fn next(&self) -> Option<u8>
        ensures next { result ≡ next_lane (lanes_of K.state K.is_open K.is_fresh self.now) }
        ensures none { IsNone result ↔ ((lane : ℕ) → is_live (lanes_of K.state K.is_open K.is_fresh self.now) lane ≡ false) }
        ensures live { IfSome result (λ lane. is_live (lanes_of K.state K.is_open K.is_fresh self.now) lane ≡ true) }
    {
        self.upcoming().map(|turn| turn.lane)
    }

    /// The exchange that the last turn made, with what the reader heard. `None` exactly before the first turn and after
    /// one that failed.
    pub fn last(&self) -> Option<&Exchange>
        ensures { option_map (λ e. made_of e.now) result ≡ (lanes_of K.state K.is_open K.is_fresh self.now).last }
    {
        if self.told { Some(&self.last) } else { None }
    }

    /// Makes exactly one exchange, in the lane that `next` names, where a transaction is open. The medium is reset before
    /// it where that is asked, and the reader hears what the probe makes of what the medium gave. The events that it adds
    /// are put into `events`, which is empty before. All other lanes stay.
    ///
    /// The cause of an end shows: an outcome among the events before it, 64 rounds of the last Start B without a card, or the
    /// exchange that `last` tells then, at which the open command's link was spent or broken.
    ///
    /// Errors: the medium failed. The lane has ended then, and the probe is as it was.
    pub fn turn<M: Medium, P: Probe>(
        &mut self,
        lane: u8,
        medium: &mut M,
        probe: &mut P,
        events: &mut EventList,
    ) -> Result<Turned, RfFailed>
        requires next { next_lane (lanes_of K.state K.is_open K.is_fresh self.old) ≡ Some lane }
        requires opened { has_open (lanes_of K.state K.is_open K.is_fresh self.old) lane ≡ true }
        requires empty { array_vec_len events.old ≡ 0 }
        ensures turns { IfOk result (λ turned. Turns K.steps M.steps P.steps lane
            (lanes_of K.state K.is_open K.is_fresh self.old) (M.state medium.old) (P.state probe.old) turned (told_by events.new.items)
            (lanes_of K.state K.is_open K.is_fresh self.new) (M.state medium.new) (P.state probe.new)) }
        ensures goes { IfOk result (λ turned. has_open (lanes_of K.state K.is_open K.is_fresh self.new) lane ≡ is_goes turned) }
        ensures cause_of_end { IfOk result (λ turned. TellsCause K.steps (lane_of (lanes_of K.state K.is_open K.is_fresh self.old) lane)
            (lanes_of K.state K.is_open K.is_fresh self.new).last turned) }
        ensures fails { OnErr result (Fails M.steps (lane_of (lanes_of K.state K.is_open K.is_fresh self.old) lane) (M.state medium.old)
            (lane_of (lanes_of K.state K.is_open K.is_fresh self.new) lane) (M.state medium.new)) }
        ensures untold { OnErr result ((lanes_of K.state K.is_open K.is_fresh self.new).last ≡ None) }
        ensures same_probe { OnErr result (P.state probe.new ≡ P.state probe.old) }
        ensures no_event { OnErr result (array_vec_len events.new ≡ 0) }
        ensures cause { HasCause (M.faults medium.old) (M.faults medium.new) (IsErr result) }
        ensures others { (k : ℕ) → k ≢ lane →
            lane_of (lanes_of K.state K.is_open K.is_fresh self.new) k ≡ lane_of (lanes_of K.state K.is_open K.is_fresh self.old) k }
        ensures count { count_of (lanes_of K.state K.is_open K.is_fresh self.new) ≡ count_of (lanes_of K.state K.is_open K.is_fresh self.old) }
        ensures order { next_of (lanes_of K.state K.is_open K.is_fresh self.old)
            ≡ Some (lane, (lanes_of K.state K.is_open K.is_fresh self.new).order) }
    {
        self.take_turn();
        let held = &mut self.lanes[usize::from(lane) - 1];
        let turned = held.exchange(lane, medium, probe, &mut self.last, events)?;
        self.told = true;
        Ok(turned)
    }

    /// Ends a lane in which no transaction is open: it makes no further exchange. All else stays.
    pub fn finish(&mut self, lane: u8)
        requires { has_open (lanes_of K.state K.is_open K.is_fresh self.old) lane ≡ false }
        ensures ended { lane_of (lanes_of K.state K.is_open K.is_fresh self.new) lane ≡ no_lane }
        ensures others { (k : ℕ) → k ≢ lane →
            lane_of (lanes_of K.state K.is_open K.is_fresh self.new) k ≡ lane_of (lanes_of K.state K.is_open K.is_fresh self.old) k }
        ensures count { count_of (lanes_of K.state K.is_open K.is_fresh self.new) ≡ count_of (lanes_of K.state K.is_open K.is_fresh self.old) }
        ensures order { (lanes_of K.state K.is_open K.is_fresh self.new).order ≡ (lanes_of K.state K.is_open K.is_fresh self.old).order }
        ensures last { (lanes_of K.state K.is_open K.is_fresh self.new).last ≡ (lanes_of K.state K.is_open K.is_fresh self.old).last }
    {
        if lane != 0 && usize::from(lane) <= self.lanes.len() {
            let held = &mut self.lanes[usize::from(lane) - 1];
            held.live = false;
        }
    }

    // The order goes on to the turn after the next one, and no exchange is told.
    fn take_turn(&mut self)
        ensures lanes { (lanes_of K.state K.is_open K.is_fresh self.new).lanes ≡ (lanes_of K.state K.is_open K.is_fresh self.old).lanes }
        ensures order { (lanes_of K.state K.is_open K.is_fresh self.new).order ≡ order_after (lanes_of K.state K.is_open K.is_fresh self.old) }
        ensures last { self.new.told ≡ false }
    {
        if let Some(turn) = self.upcoming() {
            self.past = turn.past;
            self.taken = turn.taken;
        }
        self.told = false;
    }
}
