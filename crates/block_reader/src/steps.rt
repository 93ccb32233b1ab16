//! What each hearing leads to while a command is open.
ghost use Rattle.std.specs.Prelude.{◌≡◌, ◌≤◌, ◌&&◌, ℕ, nat_le, true, false};
ghost use Rattle.arrayvec.specs.ArrayVec.{array_vec_len};
ghost use Rattle.ep_base.specs.Link.Block as rule;
ghost use Rattle.ep_base.specs.Link.ReaderEnd as rules;
ghost use Rattle.block_reader.specs.Counts.{ahead, AheadAfter, Counted, CountsAfter, is_open};
ghost use Rattle.block_reader.specs.Progress.{course, is_spent, IsWhole, Keeps, Repeats, Sends, StepShows};
ghost use Rattle.block_reader.specs.ReadBlocks.{said_of, SaysInRange};

use crate::hearing::ReadBlock;
use crate::progress::Progress;
use crate::stages::{Question, Stage, Step};
use block_pcb::Block;
use ep_base::WAITS;

impl Progress {
    /// A bad hearing.
    fn hear_bad(&mut self) -> Step
        requires open { is_open self.old.stage ≡ true }
        ensures by_rules { (r : rules.Reader) → Sends (course self.old) r → StepShows result (course self.new) rule.Bad r (rules.on_bad (rules.kept rule.Bad r)) }
        ensures counts { (len : ℕ) → Counted self.old.question self.old.bad self.old.wtx len → CountsAfter result self.new.stage self.new.question self.new.bad self.new.wtx len }
        ensures ahead { AheadAfter result (ahead self.old.stage (array_vec_len self.old.command) self.old.place (array_vec_len self.old.got)) (ahead self.new.stage (array_vec_len self.new.command) self.new.place (array_vec_len self.new.got)) }
        ensures kept { Keeps self.old self.new }
        ensures repeats { Repeats result (course self.old) (course self.new) }
        ensures spent { is_spent result ≡ nat_le 2 self.old.bad }
        ensures whole { IsWhole result self.new.got.items }
    {
        if self.bad >= 2 {
            self.bad = 3;
            return Step::Spent;
        }
        self.bad += 1;
        self.question = match self.stage {
            Stage::Receiving => Question::Ack,
            _ => Question::Nak,
        };
        Step::Again
    }

    /// An S(WTX).
    fn hear_wtx(&mut self, power: u8, wtxm: u8) -> Step
        requires range { (1 ≤ wtxm) × (wtxm ≤ 59) }
        requires open { is_open self.old.stage ≡ true }
        ensures by_rules { (r : rules.Reader) → Sends (course self.old) r →
            StepShows result (course self.new) (rule.Intact (rule.Wtx power wtxm)) r (rules.on_wtx (rule.Intact (rule.Wtx power wtxm)) r) }
        ensures counts { (len : ℕ) → Counted self.old.question self.old.bad self.old.wtx len → CountsAfter result self.new.stage self.new.question self.new.bad self.new.wtx len }
        ensures ahead { AheadAfter result (ahead self.old.stage (array_vec_len self.old.command) self.old.place (array_vec_len self.old.got)) (ahead self.new.stage (array_vec_len self.new.command) self.new.place (array_vec_len self.new.got)) }
        ensures kept { Keeps self.old self.new }
        ensures repeats { Repeats result (course self.old) (course self.new) }
        ensures spent { is_spent result ≡ false }
        ensures whole { IsWhole result self.new.got.items }
    {
        let _power = power;
        if usize::from(self.wtx) >= WAITS {
            return Step::Breach;
        }
        self.wtx += 1;
        self.question = Question::Waiting(wtxm);
        Step::Again
    }

    /// An R(ACK).
    fn hear_ack(&mut self, number: bool) -> Step
        requires open { is_open self.old.stage ≡ true }
        ensures by_rules { (r : rules.Reader) → Sends (course self.old) r →
            StepShows result (course self.new) (rule.Intact (rule.RAck number)) r (rules.reader_hears self.old.frame r (rule.Intact (rule.RAck number))) }
        ensures counts { (len : ℕ) → Counted self.old.question self.old.bad self.old.wtx len → CountsAfter result self.new.stage self.new.question self.new.bad self.new.wtx len }
        ensures ahead { AheadAfter result (ahead self.old.stage (array_vec_len self.old.command) self.old.place (array_vec_len self.old.got)) (ahead self.new.stage (array_vec_len self.new.command) self.new.place (array_vec_len self.new.got)) }
        ensures kept { Keeps self.old self.new }
        ensures repeats { Repeats result (course self.old) (course self.new) }
        ensures spent { is_spent result ≡ false }
        ensures whole { IsWhole result self.new.got.items }
    {
        if number != self.number {
            return match self.question {
                Question::Nak => {
                    self.question = Question::Part;
                    Step::Again
                }
                _ => Step::Breach,
            };
        }
        match self.stage {
            Stage::Sending => {
                let size = usize::from(self.card_frame) - 3;
                let left = self.command.len() - self.place;
                if left <= size {
                    return Step::Breach;
                }
                self.number = !self.number;
                self.place += size;
                self.bad = 0;
                self.wtx = 0;
                self.question = Question::Part;
                Step::Toggled
            }
            _ => Step::Breach,
        }
    }

    /// What a hearing leads to.
    pub(crate) fn hear(&mut self, said: ReadBlock<'_>) -> Step
        requires range { SaysInRange said }
        requires open { is_open self.old.stage ≡ true }
        ensures by_rules { (r : rules.Reader) → Sends (course self.old) r →
            StepShows result (course self.new) (said_of said.entry) r (rules.reader_hears self.old.frame r (said_of said.entry)) }
        ensures counts { (len : ℕ) → Counted self.old.question self.old.bad self.old.wtx len → CountsAfter result self.new.stage self.new.question self.new.bad self.new.wtx len }
        ensures ahead { AheadAfter result (ahead self.old.stage (array_vec_len self.old.command) self.old.place (array_vec_len self.old.got)) (ahead self.new.stage (array_vec_len self.new.command) self.new.place (array_vec_len self.new.got)) }
        ensures kept { Keeps self.old self.new }
        ensures repeats { Repeats result (course self.old) (course self.new) }
        ensures spent { is_spent result ≡ (rule.is_bad (said_of said.entry) && nat_le 2 self.old.bad) }
        ensures whole { IsWhole result self.new.got.items }
    {
        match said {
            ReadBlock::Bad => self.hear_bad(),
            ReadBlock::Junk => Step::Breach,
            ReadBlock::Intact(block) => match block {
                Block::I {
                    number,
                    chained,
                    inf,
                } => self.hear_part(number == 1, chained, inf),
                Block::RAck { number } => self.hear_ack(number == 1),
                Block::RNak { .. } => Step::Breach,
                Block::Deselect => Step::Breach,
                Block::Wtx { power, wtxm } => self.hear_wtx(power, wtxm),
            },
        }
    }
}
