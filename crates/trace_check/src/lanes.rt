//! The lanes of a trace.
ghost use Rattle.std.specs.Prelude.{◌≡◌, ◌≢◌, ◌≤◌, ◌<◌, ◌-◌, ℕ, length, Some, None, IfOk, IfErr, slice_index_or};
ghost use Rattle.ep_base.specs.declared.limits.TheConstants.{LANES};
ghost use Rattle.trace_check.specs.Meaning.{exchange_of};
ghost use Rattle.trace_check.specs.Watch.{steps, rule_of};
ghost use Rattle.trace_check.specs.declared.watch.Watch.TheVariants.{Ready};

use crate::watch::Watch;
use crate::{Rule, TraceLine};
use ep_base::LANES;

/// Where each lane stands, in the order of their numbers from 1.
#[derive(Drop)]
pub(crate) struct Lanes {
    watches: [Watch; LANES],
}

impl Lanes {
    /// Lanes before their first line.
    pub(crate) fn new() -> Lanes
        ensures len { length result.watches ≡ LANES }
        ensures ready { (k : ℕ) → slice_index_or result.watches k Ready ≡ Ready }
    {
        Lanes {
            watches: [
                Watch::Ready,
                Watch::Ready,
                Watch::Ready,
                Watch::Ready,
                Watch::Ready,
                Watch::Ready,
                Watch::Ready,
                Watch::Ready,
            ],
        }
    }

    /// Takes one more line of a lane from 1 to 8.
    ///
    /// Errors: the line isn't allowed, by this rule.
    pub(crate) fn step(&mut self, line: &TraceLine, fsdi: u8) -> Result<(), Rule>
        requires fsdi { fsdi < 16 }
        requires lane { (1 ≤ line.now.sent.lane) × (line.now.sent.lane ≤ LANES) }
        ensures next { IfOk result (λ _. steps fsdi (slice_index_or self.old.watches (line.now.sent.lane - 1) Ready) (exchange_of line.now) ≡ Some (slice_index_or self.new.watches (line.now.sent.lane - 1) Ready)) }
        ensures others { (k : ℕ) → k ≢ line.now.sent.lane - 1 → slice_index_or self.new.watches k Ready ≡ slice_index_or self.old.watches k Ready }
        ensures bad { IfErr result (λ r. steps fsdi (slice_index_or self.old.watches (line.now.sent.lane - 1) Ready) (exchange_of line.now) ≡ None) }
        ensures rule { IfErr result (λ r. r ≡ rule_of fsdi (slice_index_or self.old.watches (line.now.sent.lane - 1) Ready) (exchange_of line.now)) }
    {
        let watch = &mut self.watches[usize::from(line.sent.lane) - 1];
        let before = std::mem::replace(watch, Watch::Ready);
        *watch = before.step(line, fsdi)?;
        Ok(())
    }
}
