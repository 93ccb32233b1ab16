//! The fates that are left of a list.
ghost use Rattle.std.specs.Prelude.{◌≡◌, All};
ghost use Rattle.ep_base.specs.Air.Fates.{next_fate, fates_after};
ghost use Rattle.rf_field.specs.Meaning.{IsRun, fate_of, exchange_fates};

use crate::fates::{Fate, FateRun, Way};
use std::marker::Model;

// All frames pass.
const CLEAN: Fate = Fate {
    down: Way::Pass,
    up: Way::Pass,
};

// The fates that are left, one for each exchange.
#[derive(Drop)]
pub(crate) struct Fates {
    runs: Vec<FateRun>,
    // The place of the run that begins when no clean exchange is left of the one before.
    at: usize,
    clean: u32,
}

impl Model for Fates {
    ghost use Rattle.std.specs.Prelude.{List, ◌++◌, replicate, drop, All};
    ghost use Rattle.ep_base.specs.Air.Fates.{Fate as FateData, clean_fate};
    ghost use Rattle.rf_field.specs.Meaning.{IsRun, exchange_fates};

    ghost Value = { List FateData };

    ghost view = { λ f. replicate f.clean clean_fate ++ exchange_fates (drop f.at f.runs.items) };

    ghost invariant = { λ f. All IsRun f.runs.items };
}

impl Fates {
    // The fates of these runs, each of at least one exchange.
    pub(crate) fn of(runs: Vec<FateRun>) -> Fates
        requires { All IsRun runs.items }
        ensures { result ≡ exchange_fates runs.items }
    {
        Fates {
            runs,
            at: 0,
            clean: 0,
        }
    }

    // The fate of the next exchange: all frames pass after the end of the list.
    pub(crate) fn next(&mut self) -> Fate
        ensures fate { fate_of result ≡ next_fate self.old }
        ensures after { self.new ≡ fates_after self.old }
    {
        if self.clean > 0 {
            self.clean -= 1;
            return CLEAN;
        }
        let Some(run) = self.runs.get(self.at) else {
            return CLEAN;
        };
        self.at += 1;
        match *run {
            FateRun::Clean(count) => {
                self.clean = count - 1;
                CLEAN
            }
            FateRun::One(fate) => fate,
        }
    }
}
