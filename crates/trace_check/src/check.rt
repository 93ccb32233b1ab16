//! The check of a trace.
ghost use Rattle.std.specs.Prelude.{◌≡◌, ◌≤◌, ◌<◌, ◌^◌, ◌↔◌, All, length, map, IsOk, IfErr};
ghost use Rattle.ep_base.specs.declared.limits.TheConstants.{FSDI};
ghost use Rattle.trace_io.specs.Meaning.{traced_of};
ghost use Rattle.trace_check.specs.Verdicts.{AreAllowed, HasLane, Names};

use crate::lanes::Lanes;
use crate::{TraceLine, Verdict};

/// Checks a trace of fewer than 2^32 lines, each of a lane from 1 to 8, of a reader with this FSDI. It takes no memory.
///
/// Errors: the lines of some lane aren't allowed. The verdict names the first bad line of the trace by its place and lane,
/// and the first rule that applies.
pub fn check_trace(lines: &[TraceLine], fsdi: u8) -> Result<(), Verdict>
    requires fsdi { fsdi ≤ FSDI }
    requires few { length lines.now < 2 ^ 32 }
    requires lanes { All HasLane (map traced_of lines.now) }
    ensures allowed { IsOk result ↔ AreAllowed fsdi (map traced_of lines.now) }
    ensures bad { IfErr result (λ v. Names fsdi (map traced_of lines.now) v) }
{
    let mut lanes = Lanes::new();
    'lines: for (index, line) in lines.iter().enumerate() {
        let lane = line.sent.lane;
        if let Err(rule) = lanes.step(line, fsdi) {
            let place = index as u32 + 1;
            return Err(Verdict { place, lane, rule });
        }
    }
    Ok(())
}
