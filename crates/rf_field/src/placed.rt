//! A card of the field.
ghost use Rattle.std.specs.Prelude.{◌≡◌, ◌<◌, ◌++◌, length};
ghost use Rattle.std.specs.Prelude.{false};
ghost use Rattle.ep_base.specs.Cards.Field.{hears_frame, by_link, one_hears, placed_reset};
ghost use Rattle.ep_base.specs.Link.Wire.{takes_frame};
ghost use Rattle.rf_frame.specs.Meaning.{answer_if};
ghost use Rattle.std.specs.Option.{option_map};
ghost use Rattle.rf_field.specs.Plans.{PlanFits, placed_plan, plan_outside};

use crate::outside::Outside;
use crate::party::Party;
use crate::plans::CardPlan;
use card_image::CardLog;
use ep_base::{CardKind, FRAME_16, FrameBuf, Wave};
use rf_frame::{CardDoes, Sent};
use std::marker::Model;
use type_a::{ACard, APlan};
use type_b::BCard;

// A card of the field: whether it is present, its side outside the block protocol, and its end of the link with its image.
#[derive(Drop)]
pub(crate) struct Placed {
    present: bool,
    outside: Outside,
    party: Party,
}

impl Model for Placed {
    ghost use Rattle.ep_base.specs.Cards.Field.{Placed};
    ghost use Rattle.rf_field.specs.Cards.{placed_of};

    ghost Value = { Placed };

    ghost view = { placed_of };
}

impl Placed {
    // The card of this plan before the first reset of its field.
    pub(crate) fn of(plan: CardPlan) -> Placed
        requires { PlanFits plan }
        ensures { result ≡ placed_plan plan }
    {
        match plan {
            CardPlan::A(plan, image) => Placed {
                present: false,
                outside: Outside::A(ACard::open(plan)),
                party: Party::open(CardKind::A, FRAME_16, image),
            },
            CardPlan::B(plan, image) => Placed {
                present: false,
                outside: Outside::B(BCard::open(plan)),
                party: Party::open(CardKind::B, FRAME_16, image),
            },
        }
    }

    // The plan of a card of Type A.
    pub(crate) fn plan(&self) -> Option<&APlan>
        ensures { option_map (λ p. p.now) result ≡ plan_outside self.now.outside }
    {
        self.outside.plan()
    }

    // Whether a present card sends something after a frame. What it sends is written, and what it executes is listed in
    // the log.
    fn hear_frame(
        &mut self,
        wave: Wave,
        frame: &FrameBuf,
        log: &mut CardLog,
        sent: &mut Sent,
    ) -> bool
        requires { length log.old.0 < log.old.1 }
        ensures card { self.new ≡ (hears_frame self.old wave frame.now.items).card }
        ensures logged { log.new ≡ (log.old.0 ++ (hears_frame self.old wave frame.now.items).executed, log.old.1) }
        ensures answer { answer_if result sent.new ≡ (hears_frame self.old wave frame.now.items).answer }
    {
        match self.outside.hear(wave, frame, sent) {
            CardDoes::Mute => false,
            CardDoes::Send => true,
            CardDoes::Opened { fsd } => {
                self.party.reopen(fsd);
                true
            }
            CardDoes::Passed => self.hear_block(wave, frame, log, sent),
        }
    }

    // Whether a card in the block protocol sends something after a frame of its own wave.
    fn hear_block(
        &mut self,
        wave: Wave,
        frame: &FrameBuf,
        log: &mut CardLog,
        sent: &mut Sent,
    ) -> bool
        requires { length log.old.0 < log.old.1 }
        ensures card { self.new ≡ (by_link self.old (takes_frame self.old.party wave frame.now.items)).card }
        ensures logged { log.new ≡ (log.old.0 ++ (takes_frame self.old.party wave frame.now.items).executed, log.old.1) }
        ensures answer { answer_if result sent.new ≡ (takes_frame self.old.party wave frame.now.items).answer }
    {
        let answers = self.party.hear(wave, frame, log, sent);
        if self.party.halted() {
            self.outside.halt();
        }
        answers
    }

    // Whether the card sends something after a frame, which it hears where it is present and the log has a free record.
    pub(crate) fn hear(
        &mut self,
        wave: Wave,
        frame: &FrameBuf,
        log: &mut CardLog,
        sent: &mut Sent,
    ) -> bool
        ensures card { self.new ≡ (one_hears log.old.1 wave frame.now.items log.old.0 self.old).card }
        ensures logged { log.new ≡ (log.old.0 ++ (one_hears log.old.1 wave frame.now.items log.old.0 self.old).executed, log.old.1) }
        ensures answer { answer_if result sent.new ≡ (one_hears log.old.1 wave frame.now.items log.old.0 self.old).answer }
    {
        if self.present && log.spare() > 0 {
            self.hear_frame(wave, frame, log, sent)
        } else {
            false
        }
    }

    // The next round began, in which the card is present or not.
    pub(crate) fn reset(&mut self, present: bool)
        ensures { self.new ≡ placed_reset present self.old }
    {
        self.present = present;
        self.outside.reset();
        self.party.reset();
    }

    // The card left.
    pub(crate) fn leave(&mut self)
        ensures { self.new ≡ record self.old { present = false } }
    {
        self.present = false;
    }
}
