//! The numbers that a load is drawn from.
ghost use Rattle.std.specs.Prelude.{◌≡◌, ◌<◌};
ghost use Rattle.ep_load.specs.Draws.{below, draws};

use std::marker::Model;

// The state that the next draw starts from.
#[derive(Debug, Drop)]
pub(crate) struct Generator {
    state: u64,
}

impl Model for Generator {
    ghost use Rattle.std.specs.Prelude.{ℕ, ◌<◌, ◌^◌};

    ghost Value = { ℕ };

    ghost view = { λ g. g.state };

    ghost invariant = { λ g. g.state < 2 ^ 32 };
}

impl Generator {
    // Before the first draw.
    pub(crate) fn of(seed: u32) -> Generator
        ensures { result ≡ seed }
    {
        Generator {
            state: u64::from(seed),
        }
    }

    // A draw below the bound.
    #[tactic(auto, unfolding(crate::specs::Draws::state_after))]
    fn below(&mut self, bound: u16) -> u16
        requires { 0 < bound }
        ensures value { result ≡ (below bound self.old).0 }
        ensures after { self.new ≡ (below bound self.old).1 }
        ensures less { result < bound }
    {
        self.state = (self.state * 1_103_515_245 + 12_345) % 0x8000_0000;
        (self.state / 65_536 % u64::from(bound)) as u16
    }

    // The draws of a transaction.
    pub(crate) fn draws(&mut self) -> Draws
        ensures value { result ≡ (draws self.old).0 }
        ensures after { self.new ≡ (draws self.old).1 }
    {
        let amount = self.below(10_000);
        let kind = self.below(2);
        let choice = self.below(3);
        let fsci = self.below(9);
        let clean = self.below(6);
        let loss = self.below(8);
        let wtx = self.below(3);
        let outcome = self.below(4);
        Draws {
            amount,
            kind,
            choice,
            fsci,
            clean,
            loss,
            wtx,
            outcome,
        }
    }
}

// What is drawn for a transaction.
#[derive(Debug, Drop)]
pub(crate) struct Draws {
    // How much the amount is above 100.
    pub(crate) amount: u16,
    // 0 for a card of Type A, 1 for one of Type B.
    pub(crate) kind: u16,
    // The place of the Combination.
    pub(crate) choice: u16,
    // The code of the frame size that the card takes.
    pub(crate) fsci: u16,
    // How much the first run of clean exchanges is above 7.
    pub(crate) clean: u16,
    // 0 where every card leaves after that run.
    pub(crate) loss: u16,
    // How many S(WTX) come before the response to the kernel's command.
    pub(crate) wtx: u16,
    // The place of the outcome.
    pub(crate) outcome: u16,
}

impl Model for Draws {
    ghost use Rattle.ep_load.specs.Draws.{Draws, AreDraws};

    ghost Value = { Draws };

    ghost view = { λ d. record {
      amount = d.amount;
      kind = d.kind;
      choice = d.choice;
      fsci = d.fsci;
      clean = d.clean;
      loss = d.loss;
      wtx = d.wtx;
      outcome = d.outcome;
    } };

    ghost invariant = { λ d. AreDraws (record {
      amount = d.amount;
      kind = d.kind;
      choice = d.choice;
      fsci = d.fsci;
      clean = d.clean;
      loss = d.loss;
      wtx = d.wtx;
      outcome = d.outcome;
    }) };
}
