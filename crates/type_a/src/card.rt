//! The card's side, outside the block protocol.
ghost use Rattle.std.specs.Prelude.{◌≡◌, ◌≢◌};
ghost use Rattle.ep_base.specs.Cards.TypeA.{a_card, a_takes, a_ready, a_select, a_active, Idle, Ready, Halted, Active, Protocol};
ghost use Rattle.rf_frame.specs.Meaning.{card_hear_of, reply_of};
ghost use Rattle.type_a.specs.Plan.{PlanFits};

use crate::plan::{APlan, level_part, levels, put_ats};
use crate::reader::sel;
use ep_base::{FrameBuf, Wave, bit, frame_size};
use rf_frame::{CardDoes, CardHear, Sent, open_frame, put_sent};
use std::marker::Model;

/// Where a card stands, and that it is in the block protocol.
#[derive(Clone, Copy, Debug)]
enum Place {
    Idle,
    Ready(u8),
    Active,
    Protocol,
    Halted,
}

/// A card of Type A, outside the block protocol.
#[derive(Debug, Drop)]
pub struct ACard {
    plan: APlan,
    place: Place,
}

impl Model for ACard {
    ghost use Rattle.type_a.specs.Card.{CardState};

    ghost Value = { CardState };

    ghost use Rattle.type_a.specs.CardView.{card_state, CardFits};

    ghost view = { card_state };

    ghost invariant = { CardFits };
}

impl ACard {
    /// A card of this plan, in the state Idle. Its UID has 4, 7 or 10 bytes, and its codes are below 16.
    pub fn open(plan: APlan) -> ACard
        requires { PlanFits plan }
        ensures plan { result.plan ≡ plan }
        ensures state { result.state ≡ Idle }
    {
        ACard {
            plan,
            place: Place::Idle,
        }
    }

    /// What it is made of.
    pub fn plan(&self) -> &APlan
        ensures { result.now ≡ self.now.plan }
    {
        &self.plan
    }

    /// The field was reset: the card is Idle.
    pub fn reset(&mut self)
        ensures plan { self.new.plan ≡ self.old.plan }
        ensures state { self.new.state ≡ Idle }
    {
        self.place = Place::Idle;
    }

    /// The block protocol ended by S(DESELECT): the card is Halted.
    pub fn halt(&mut self)
        ensures plan { self.new.plan ≡ self.old.plan }
        ensures state { self.new.state ≡ Halted }
    {
        self.place = Place::Halted;
    }

    /// A selection of its level, by the bytes after SEL and 70h.
    fn select(&mut self, level: u8, part: &[u8], sent: &mut Sent) -> CardDoes
        requires at { self.old.state ≡ Ready level }
        ensures plan { self.new.plan ≡ self.old.plan }
        ensures state { self.new.state ≡ (a_select self.old.plan level part.now).0 }
        ensures reply { reply_of result sent.new ≡ (a_select self.old.plan level part.now).1 }
    {
        let own = level_part(&self.plan, level);
        if part != own.as_slice() {
            self.place = Place::Idle;
            return CardDoes::Mute;
        }
        if level == levels(&self.plan) {
            self.place = Place::Active;
            put_sent(Wave::A, &[self.plan.sak], sent);
            return CardDoes::Send;
        }
        self.place = Place::Ready(level + 1);
        put_sent(Wave::A, &[0x04], sent);
        CardDoes::Send
    }

    /// A message in the state Ready.
    fn ready(&mut self, level: u8, wave: Wave, message: &[u8], sent: &mut Sent) -> CardDoes
        requires at { self.old.state ≡ Ready level }
        ensures plan { self.new.plan ≡ self.old.plan }
        ensures state { self.new.state ≡ (a_ready self.old.plan level wave message.now).0 }
        ensures reply { reply_of result sent.new ≡ (a_ready self.old.plan level wave message.now).1 }
    {
        if wave == Wave::ABare && message == [sel(level), 0x20].as_slice() {
            let part = level_part(&self.plan, level);
            put_sent(Wave::ABare, part.as_slice(), sent);
            return CardDoes::Send;
        }
        if wave == Wave::A && message.len() >= 2 && message[0] == sel(level) && message[1] == 0x70 {
            return self.select(level, &message[2..], sent);
        }
        CardDoes::Mute
    }

    /// A message in the state Active.
    fn active(&mut self, wave: Wave, message: &[u8], sent: &mut Sent) -> CardDoes
        requires at { self.old.state ≡ Active }
        ensures plan { self.new.plan ≡ self.old.plan }
        ensures state { self.new.state ≡ (a_active self.old.plan wave message.now).0 }
        ensures reply { reply_of result sent.new ≡ (a_active self.old.plan wave message.now).1 }
    {
        if wave == Wave::A
            && message.len() == 2
            && message[0] == 0xe0
            && message[1] % 16 == 0
            && bit(self.plan.sak, 0x20) == 1
        {
            self.place = Place::Protocol;
            put_ats(&self.plan, sent);
            return CardDoes::Opened {
                fsd: frame_size(message[1] / 16),
            };
        }
        CardDoes::Mute
    }

    /// A good frame's message, outside the block protocol.
    #[tactic(auto, unfolding(ep_base::specs::Cards::TypeA::a_takes))]
    fn takes(&mut self, wave: Wave, message: &[u8], sent: &mut Sent) -> CardDoes
        requires out { self.old.state ≢ Protocol }
        ensures plan { self.new.plan ≡ self.old.plan }
        ensures state { self.new.state ≡ (a_takes self.old.plan self.old.state wave message.now).0 }
        ensures reply { reply_of result sent.new ≡ (a_takes self.old.plan self.old.state wave message.now).1 }
    {
        if wave == Wave::AShort && message == [0x52].as_slice() {
            let size = match levels(&self.plan) {
                1 => 0x04,
                2 => 0x44,
                _ => 0x84,
            };
            self.place = Place::Ready(1);
            put_sent(Wave::ABare, &[size, 0], sent);
            return CardDoes::Send;
        }
        if wave == Wave::A && message == [0x50, 0x00].as_slice() {
            self.place = Place::Halted;
            return CardDoes::Mute;
        }
        match self.place {
            Place::Ready(level) => self.ready(level, wave, message, sent),
            Place::Active => self.active(wave, message, sent),
            Place::Idle | Place::Protocol | Place::Halted => CardDoes::Mute,
        }
    }

    /// Hears a frame, its check bytes among its bytes, damaged or not. Outside the block protocol the card answers a good
    /// frame that its state has an answer for, and is mute otherwise; in it, each frame of wave `A` is passed on.
    pub fn hear(&mut self, wave: Wave, frame: &FrameBuf) -> CardHear
        ensures plan { self.new.plan ≡ self.old.plan }
        ensures state { self.new.state ≡ (a_card self.old.plan self.old.state wave frame.now.items).0 }
        ensures reply { card_hear_of result ≡ (a_card self.old.plan self.old.state wave frame.now.items).1 }
    {
        let mut sent = Sent::blank();
        let does = self.hear_into(wave, frame, &mut sent);
        does.with(sent)
    }

    /// Hears a frame as `hear` does, and writes what it sends in place of another frame.
    pub fn hear_into(&mut self, wave: Wave, frame: &FrameBuf, sent: &mut Sent) -> CardDoes
        ensures plan { self.new.plan ≡ self.old.plan }
        ensures state { self.new.state ≡ (a_card self.old.plan self.old.state wave frame.now.items).0 }
        ensures reply { reply_of result sent.new ≡ (a_card self.old.plan self.old.state wave frame.now.items).1 }
    {
        if let Place::Protocol = self.place {
            return if wave == Wave::A {
                CardDoes::Passed
            } else {
                CardDoes::Mute
            };
        }
        match open_frame(wave, frame) {
            Some(message) => self.takes(wave, message, sent),
            None => CardDoes::Mute,
        }
    }
}
