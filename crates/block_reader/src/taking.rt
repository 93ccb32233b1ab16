//! The parts of a response.
ghost use Rattle.std.specs.Prelude.{◌≡◌, ◌≤◌, ℕ, true, false};
ghost use Rattle.arrayvec.specs.ArrayVec.{array_vec_len};
ghost use Rattle.ep_base.specs.Link.Block as rule;
ghost use Rattle.ep_base.specs.Link.ReaderEnd as rules;
ghost use Rattle.block_reader.specs.Counts.{ahead, AheadAfter, Counted, CountsAfter, is_open};
ghost use Rattle.block_reader.specs.Progress.{course, is_spent, IsWhole, Keeps, Repeats, Sends, StepShows};

use crate::progress::Progress;
use crate::stages::{Question, Stage, Step};

impl Progress {
    /// A part of the response that may come.
    fn take_part(&mut self, number: bool, chained: bool, inf: &[u8]) -> Step
        requires open { is_open self.old.stage ≡ true }
        ensures by_rules { (r : rules.Reader) → Sends (course self.old) r →
            StepShows result (course self.new) (rule.Intact (rule.I number chained inf.now)) r (rules.takes self.old.frame self.old.got.items chained inf.now r) }
        ensures counts { (len : ℕ) → Counted self.old.question self.old.bad self.old.wtx len → CountsAfter result self.new.stage self.new.question self.new.bad self.new.wtx len }
        ensures ahead { AheadAfter result (ahead self.old.stage (array_vec_len self.old.command) self.old.place (array_vec_len self.old.got)) (ahead self.new.stage (array_vec_len self.new.command) self.new.place (array_vec_len self.new.got)) }
        ensures kept { Keeps self.old self.new }
        ensures repeats { Repeats result (course self.old) (course self.new) }
        ensures spent { is_spent result ≡ false }
        ensures whole { IsWhole result self.new.got.items }
    {
        let _number = number;
        if inf.len() + 3 > usize::from(self.frame) {
            return Step::Breach;
        }
        if chained && inf.is_empty() {
            return Step::Breach;
        }
        if !chained && self.got.len() + inf.len() < 2 {
            return Step::Breach;
        }
        if self.got.try_extend_from_slice(inf).is_err() {
            return Step::Breach;
        }
        self.number = !self.number;
        self.bad = 0;
        self.wtx = 0;
        if chained {
            self.stage = Stage::Receiving;
            self.question = Question::Ack;
            return Step::Toggled;
        }
        self.stage = Stage::Resting;
        Step::Done
    }

    /// An I-block.
    pub(crate) fn hear_part(&mut self, number: bool, chained: bool, inf: &[u8]) -> Step
        requires open { is_open self.old.stage ≡ true }
        ensures by_rules { (r : rules.Reader) → Sends (course self.old) r →
            StepShows result (course self.new) (rule.Intact (rule.I number chained inf.now)) r (rules.reader_hears self.old.frame r (rule.Intact (rule.I number chained inf.now))) }
        ensures counts { (len : ℕ) → Counted self.old.question self.old.bad self.old.wtx len → CountsAfter result self.new.stage self.new.question self.new.bad self.new.wtx len }
        ensures ahead { AheadAfter result (ahead self.old.stage (array_vec_len self.old.command) self.old.place (array_vec_len self.old.got)) (ahead self.new.stage (array_vec_len self.new.command) self.new.place (array_vec_len self.new.got)) }
        ensures kept { Keeps self.old self.new }
        ensures repeats { Repeats result (course self.old) (course self.new) }
        ensures spent { is_spent result ≡ false }
        ensures whole { IsWhole result self.new.got.items }
    {
        if number != self.number {
            return Step::Breach;
        }
        match self.stage {
            Stage::Sending => {
                let size = usize::from(self.card_frame) - 3;
                let left = self.command.len() - self.place;
                if left > size {
                    return Step::Breach;
                }
                self.take_part(number, chained, inf)
            }
            Stage::Receiving => self.take_part(number, chained, inf),
            _ => Step::Breach,
        }
    }
}
