//! A trace that answers the exchanges of lanes.

use crate::answering::Answers;
use crate::jobs::LaneJobs;
use card_image::Record;
use ep_lanes::{EventList, Lanes, Open, Turned};
use scenario::{Field, Scripts};
use trace_io::Replay;

/// The way of a trace: each exchange is compared with its next line, and the reader hears what that line says. No field of
/// the lanes is used, and a field without cards stands for each.
pub(crate) struct ByTrace;

impl Answers<ByTrace> for Replay {
    ghost use Rattle.std.specs.Prelude.{is_some, refl};
    ghost use Rattle.ep_claim.specs.Lanes.ReplayRun.{Replaying};
    ghost use Rattle.ep_claim.specs.Lanes.WholeReplay.{no_cards, trace_probe};
    ghost use Rattle.ep_claim.specs.Lanes.Probing.{probe_told};
    ghost use Rattle.lane_run.specs.Blank.{IsBlank, no_cards_blank};
    ghost use Rattle.trace_io.specs.Replays.{replaying_of};

    ghost State = { Replaying };

    ghost state = { replaying_of };

    ghost steps = { probe_told trace_probe };

    ghost has_failed = { λ s. is_some s.failure };

    ghost field_for = { λ _. no_cards };

    ghost plays = { λ _ f. IsBlank f };

    ghost begins = { λ _. no_cards_blank };

    /// Nothing.
    fn log(_field: &Field) -> &[Record] {
        &[]
    }

    /// Compares what the lane asks with the trace's next line. `None` where the line says something else, or there is none.
    fn turn(
        &mut self,
        lane: u8,
        lanes: &mut Lanes<Scripts>,
        _work: &mut LaneJobs,
        events: &mut EventList,
    ) -> Option<Turned> {
        self.at(lane);
        match lanes.turn(lane, self, &mut Open, events) {
            Ok(turned) => Some(turned),
            Err(_) => None,
        }
    }
}
