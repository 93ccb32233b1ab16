//! What becomes of the frames of a load.
ghost use Rattle.std.specs.Prelude.{◌≡◌, All, IfOk};
ghost use Rattle.rf_field.specs.Meaning.{IsRun, exchange_fates};
ghost use Rattle.ep_load.specs.Fates.{fates_drawn};

use crate::draws::Draws;
use ep_base::NoMemory;
use rf_field::{Fate, FateRun, Way};
use std::alloc::Global;

const LEAVING: FateRun = FateRun::One(Fate {
    down: Way::Leave,
    up: Way::Pass,
});

const ANSWER_LOST: FateRun = FateRun::One(Fate {
    down: Way::Pass,
    up: Way::Lose,
});

const FRAME_LOST: FateRun = FateRun::One(Fate {
    down: Way::Lose,
    up: Way::Pass,
});

// What becomes of the frames of a transaction.
pub(crate) fn fates_drawn(alloc: Global, draws: &Draws) -> Result<Vec<FateRun>, NoMemory>
    ensures fates { IfOk result (λ v. exchange_fates v.items ≡ fates_drawn draws.now) }
    ensures runs { IfOk result (λ v. All IsRun v.items) }
{
    let clean = FateRun::Clean(7 + u32::from(draws.clean));
    let runs = if draws.loss == 0 {
        vec![in alloc; clean, LEAVING].ok()
    } else {
        vec![in alloc; clean, ANSWER_LOST, FateRun::Clean(3), FRAME_LOST].ok()
    };
    runs.ok_or(NoMemory)
}
