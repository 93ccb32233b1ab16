//! Who answers the exchanges of lanes.
ghost use Rattle.std.specs.Prelude.{◌≡◌, ◌≢◌, ℕ, Bool, true, false, refl, Option, Some, IfSome, IfNone, OnSome, is_some};
ghost use Rattle.arrayvec.specs.ArrayVec.{array_vec_len};
ghost use Rattle.ep_base.specs.Cards.Field as plain;
ghost use Rattle.ep_lanes.specs.Lanes.{count_of, has_open, is_live, lane_of, next_lane, next_of};
ghost use Rattle.ep_claim.specs.Lanes.Probing.{ProbeAnswers};
ghost use Rattle.ep_lanes.specs.Saying.{is_goes};
ghost use Rattle.ep_lanes.specs.Scripted.{held_of};
ghost use Rattle.lane_run.specs.Turned.{HeardTurn, UnheardTurn};
ghost use Rattle.rf_field.specs.Fields.{field_of};
ghost use Rattle.session_phases.specs.Told.{told_by};

use crate::jobs::LaneJobs;
use card_image::Record;
use ep_lanes::{EventList, Lanes, Probe, Turned};
use scenario::{Field, Scripts};

/// Who answers the exchanges of all lanes, in a way that the parameter names. It means a state, and by its steps what a reader
/// may hear where its field gave so, and the state after it. In some states it has failed: its last exchange had no answer.
pub trait Answers<By> {
    /// What a state is.
    ghost State: { Type 0 };

    /// Its state.
    ghost state: { Self → State };

    /// What it may answer in a state, and the state after it.
    ghost steps: { ProbeAnswers State };

    /// Whether it has failed.
    ghost has_failed: { State → Bool };

    /// The field that stands in the run for that of a transaction before its first exchange.
    ghost field_for: { plain.Field → plain.Field };

    /// Which fields may stand for the one that a lane holds, if it holds one.
    ghost plays: { Option plain.Field → plain.Field → Type 0 };

    /// What is written of the log of a transaction's field: that of any field that stands for it.
    fn log(field: &Field) -> &[Record]
        ensures log { (f : plain.Field) → plays (Some (field_of field.now)) f → result.now ≡ f.log };

    /// Answers the next exchange, which is one of this lane, where a transaction is open. The events that it adds are put into
    /// `events`, which is empty before. `None` where it has no answer: it has failed then.
    fn turn(
        &mut self,
        lane: u8,
        lanes: &mut Lanes<Scripts>,
        work: &mut LaneJobs,
        events: &mut EventList,
    ) -> Option<Turned>
        requires next { next_lane (held_of lanes.old) ≡ Some lane }
        requires opened { has_open (held_of lanes.old) lane ≡ true }
        requires field { is_some work.old.field ≡ true }
        requires empty { array_vec_len events.old ≡ 0 }
        ensures turns { IfSome result (λ turned. (f : plain.Field) → plays work.old.field f →
            HeardTurn steps plays lane (held_of lanes.old) f (state self.old) turned (told_by events.new.items) (held_of lanes.new) work.new.field (state self.new)) }
        ensures answered { OnSome result (has_failed (state self.new) ≡ false) }
        ensures unheard { IfNone result ((f : plain.Field) → plays work.old.field f →
            UnheardTurn steps lane (lane_of (held_of lanes.old) lane) f (state self.old) (state self.new)) }
        ensures failed { IfNone result (has_failed (state self.new) ≡ true) }
        ensures made { OnSome result (is_some (held_of lanes.new).last ≡ true) }
        ensures live { OnSome result (is_live (held_of lanes.new) lane ≡ true) }
        ensures goes { IfSome result (λ turned. has_open (held_of lanes.new) lane ≡ is_goes turned) }
        ensures field { OnSome result (is_some work.new.field ≡ true) }
        ensures left { work.new.left ≡ work.old.left }
        ensures number { work.new.txn ≡ work.old.txn }
        ensures others { (k : ℕ) → k ≢ lane → lane_of (held_of lanes.new) k ≡ lane_of (held_of lanes.old) k }
        ensures count { count_of (held_of lanes.new) ≡ count_of (held_of lanes.old) }
        ensures order { next_of (held_of lanes.old) ≡ Some (lane, (held_of lanes.new).order) };

    /// A transaction begins with the field that stands for its own one.
    ghost begins: { (f : plain.Field) → plays (Some f) (field_for f) };
}

/// The way of a probe: the field of each transaction answers, and the probe gives on what it makes of it.
pub struct ByFields;

impl<P: Probe> Answers<ByFields> for P {
    ghost State = { P.State };

    ghost state = { P.state };

    ghost steps = { P.steps };

    ghost has_failed = { λ _. false };

    ghost field_for = { λ f. f };

    ghost plays = { λ o f. o ≡ Some f };

    ghost begins = { λ f. refl };

    /// Its own log.
    fn log(field: &Field) -> &[Record] {
        field.log().records()
    }

    /// Makes the exchange over the field of the lane's open transaction. It never fails.
    fn turn(
        &mut self,
        lane: u8,
        lanes: &mut Lanes<Scripts>,
        work: &mut LaneJobs,
        events: &mut EventList,
    ) -> Option<Turned> {
        let Some(mut field) = work.take_field() else {
            unreachable!()
        };
        let Ok(turned) = lanes.turn(lane, &mut field, self, events) else {
            unreachable!()
        };
        work.put_field(field);
        Some(turned)
    }
}
