//! The card's side, outside the block protocol.
ghost use Rattle.std.specs.Prelude.{◌≡◌, ◌≢◌};
ghost use Rattle.ep_base.specs.Air.Heard.{framed};
ghost use Rattle.ep_base.specs.Cards.TypeB.{b_card, b_takes, b_ready, atqb_of, BIdle, BReady, BProtocol};
ghost use Rattle.rf_frame.specs.Meaning.{card_hear_of, reply_of};
ghost use Rattle.type_b.specs.Card.{PlanFits, plan_of};

use crate::messages::attrib;
use ep_base::{Buf, FrameBuf, Wave, frame_size};
use rf_frame::{CardDoes, CardHear, Sent, open_frame, put_sent};
use std::marker::Model;

/// A card of Type B.
#[derive(Clone, Copy, Debug, PartialEq, Eq)]
pub struct BPlan {
    /// Its pseudo-unique identifier.
    pub pupi: [u8; 4],
    /// The application data of its ATQB.
    pub app_data: [u8; 4],
    /// The code of the frame size that it takes.
    pub fsci: u8,
    /// Its frame waiting time integer.
    pub fwi: u8,
    /// Whether it follows ISO/IEC 14443-4.
    pub iso4: bool,
}

/// Where a card stands, and that it is in the block protocol.
#[derive(Clone, Copy, Debug)]
enum Place {
    Idle,
    Ready,
    Protocol,
}

/// A card of Type B, outside the block protocol.
#[derive(Debug, Drop)]
pub struct BCard {
    plan: BPlan,
    place: Place,
}

impl Model for BCard {
    ghost use Rattle.type_b.specs.Card.{CardState};

    ghost Value = { CardState };

    ghost use Rattle.type_b.specs.CardView.{card_state, CardFits};

    ghost view = { card_state };

    ghost invariant = { CardFits };
}

/// Sends a card's ATQB.
fn put_atqb(plan: &BPlan, sent: &mut Sent)
    requires { PlanFits (plan_of plan.now) }
    ensures { sent.new ≡ framed Wave.B (atqb_of (plan_of plan.now)) }
{
    let mut message = Buf::<12>::new();
    message.push(0x50);
    message.try_extend_from_slice(&plan.pupi).unwrap();
    message.try_extend_from_slice(&plan.app_data).unwrap();
    message.push(0);
    message.push(16 * plan.fsci + if plan.iso4 { 1 } else { 0 });
    message.push(16 * plan.fwi);
    put_sent(Wave::B, message.as_slice(), sent);
}

impl BCard {
    /// A card of this plan, in the state Idle. Its codes are below 16.
    pub fn open(plan: BPlan) -> BCard
        requires { PlanFits (plan_of plan) }
        ensures plan { result.plan ≡ plan_of plan }
        ensures state { result.state ≡ BIdle }
    {
        BCard {
            plan,
            place: Place::Idle,
        }
    }

    /// The field was reset: the card is Idle.
    pub fn reset(&mut self)
        ensures plan { self.new.plan ≡ self.old.plan }
        ensures state { self.new.state ≡ BIdle }
    {
        self.place = Place::Idle;
    }

    /// The block protocol ended by S(DESELECT): the card is Idle.
    pub fn halt(&mut self)
        ensures plan { self.new.plan ≡ self.old.plan }
        ensures state { self.new.state ≡ BIdle }
    {
        self.place = Place::Idle;
    }

    /// A message in the state Ready.
    fn ready(&mut self, message: &[u8], sent: &mut Sent) -> CardDoes
        requires at { self.old.state ≡ BReady }
        ensures plan { self.new.plan ≡ self.old.plan }
        ensures state { self.new.state ≡ (b_ready self.old.plan message.now).0 }
        ensures reply { reply_of result sent.new ≡ (b_ready self.old.plan message.now).1 }
    {
        if message.len() == 9 && message[6] < 16 {
            let wanted = attrib(&self.plan.pupi, message[6]);
            if message == wanted.as_slice() && self.plan.iso4 {
                self.place = Place::Protocol;
                put_sent(Wave::B, &[0], sent);
                return CardDoes::Opened {
                    fsd: frame_size(message[6]),
                };
            }
        }
        CardDoes::Mute
    }

    /// A good frame's message, outside the block protocol.
    #[tactic(auto, unfolding(ep_base::specs::Cards::TypeB::b_takes))]
    fn takes(&mut self, wave: Wave, message: &[u8], sent: &mut Sent) -> CardDoes
        requires out { self.old.state ≢ BProtocol }
        ensures plan { self.new.plan ≡ self.old.plan }
        ensures state { self.new.state ≡ (b_takes self.old.plan self.old.state wave message.now).0 }
        ensures reply { reply_of result sent.new ≡ (b_takes self.old.plan self.old.state wave message.now).1 }
    {
        if wave != Wave::B {
            return CardDoes::Mute;
        }
        if message == [0x05, 0x00, 0x08].as_slice() {
            self.place = Place::Ready;
            put_atqb(&self.plan, sent);
            return CardDoes::Send;
        }
        match self.place {
            Place::Ready => self.ready(message, sent),
            Place::Idle | Place::Protocol => CardDoes::Mute,
        }
    }

    /// Hears a frame, its check bytes among its bytes, damaged or not. Outside the block protocol the card answers a good
    /// frame that its state has an answer for, and is mute otherwise; in it, each frame of wave `B` is passed on.
    pub fn hear(&mut self, wave: Wave, frame: &FrameBuf) -> CardHear
        ensures plan { self.new.plan ≡ self.old.plan }
        ensures state { self.new.state ≡ (b_card self.old.plan self.old.state wave frame.now.items).0 }
        ensures reply { card_hear_of result ≡ (b_card self.old.plan self.old.state wave frame.now.items).1 }
    {
        let mut sent = Sent::blank();
        let does = self.hear_into(wave, frame, &mut sent);
        does.with(sent)
    }

    /// Hears a frame as `hear` does, and writes what it sends in place of another frame.
    pub fn hear_into(&mut self, wave: Wave, frame: &FrameBuf, sent: &mut Sent) -> CardDoes
        ensures plan { self.new.plan ≡ self.old.plan }
        ensures state { self.new.state ≡ (b_card self.old.plan self.old.state wave frame.now.items).0 }
        ensures reply { reply_of result sent.new ≡ (b_card self.old.plan self.old.state wave frame.now.items).1 }
    {
        if let Place::Protocol = self.place {
            return if wave == Wave::B {
                CardDoes::Passed
            } else {
                CardDoes::Mute
            };
        }
        match open_frame(wave, frame) {
            Some(message) => self.takes(wave, message, sent),
            None => CardDoes::Mute,
        }
    }
}
