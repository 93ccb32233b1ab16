//! Whose turn it is.
ghost use Rattle.std.specs.Prelude.{◌≡◌, ◌+◌, ◌≤◌, ◌<◌, drop, vec_len, IfSome};
ghost use Rattle.ep_claim.specs.Lanes.Order.{in_round, listed, lowest};
ghost use Rattle.ep_lanes.specs.Lanes.{count_of, is_live as live_in, lanes_of, next_of};
ghost use Rattle.ep_lanes.specs.Upcoming.{listed_at, turn_at};

use crate::holding::Lanes;
use kernel_port::Kernels;

/// The lane that makes the next exchange, how much of the turn list is past then, and which lane was taken last after its
/// end.
#[derive(Clone, Copy)]
pub(crate) struct Upcoming {
    pub(crate) lane: u8,
    pub(crate) past: usize,
    pub(crate) taken: u8,
}

impl<K: Kernels + Drop> Lanes<K> {
    /// Whether the lane with this number is live.
    pub fn is_live(&self, lane: u8) -> bool
        ensures { result ≡ live_in (lanes_of K.state K.is_open K.is_fresh self.now) lane }
    {
        if lane == 0 {
            return false;
        }
        match self.lanes.get(usize::from(lane) - 1) {
            Some(held) => held.live,
            None => false,
        }
    }

    /// The place of the turn list's next live lane.
    fn listed_next(&self) -> Option<usize>
        ensures listed { listed_at self.now.turns.items result
            ≡ listed (live_in (lanes_of K.state K.is_open K.is_fresh self.now)) (drop self.now.past self.now.turns.items) }
        ensures within { IfSome result (λ i. i < vec_len self.now.turns) }
    {
        for i in self.past..self.turns.len() {
            if self.is_live(self.turns[i]) {
                return Some(i);
            }
        }
        None
    }

    /// The lowest live one of so many lanes from this one on.
    fn lowest_live(&self, first: u8, many: u8) -> Option<u8>
        requires { first + many < 256 }
        ensures lowest { result ≡ lowest (live_in (lanes_of K.state K.is_open K.is_fresh self.now)) first many }
        ensures within { IfSome result (λ n. n < first + many) }
    {
        for lane in first..first + many {
            if self.is_live(lane) {
                return Some(lane);
            }
        }
        None
    }

    /// The next live lane in rising order behind the one that was taken last, and then from the first on.
    fn round_next(&self) -> Option<u8>
        ensures lane { result ≡ in_round (live_in (lanes_of K.state K.is_open K.is_fresh self.now)) (vec_len self.now.lanes) self.now.taken }
        ensures within { IfSome result (λ n. n ≤ vec_len self.now.lanes) }
    {
        let count = self.lanes.len() as u8;
        let taken = self.taken;
        let behind = self.lowest_live(taken + 1, count - taken);
        if behind.is_some() {
            return behind;
        }
        self.lowest_live(1, taken)
    }

    /// The next turn, if there is one.
    pub(crate) fn upcoming(&self) -> Option<Upcoming>
        ensures next { turn_at self.now.turns.items result ≡ next_of (lanes_of K.state K.is_open K.is_fresh self.now) }
        ensures within { IfSome result (λ u. u.taken ≤ vec_len self.now.lanes) }
    {
        if let Some(i) = self.listed_next() {
            return Some(Upcoming {
                lane: self.turns[i],
                past: i + 1,
                taken: self.taken,
            });
        }
        let lane = self.round_next()?;
        Some(Upcoming {
            lane,
            past: self.turns.len(),
            taken: lane,
        })
    }
}
