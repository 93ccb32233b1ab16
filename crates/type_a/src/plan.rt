//! What a card of Type A is made of.
ghost use Rattle.std.specs.Prelude.{◌≡◌, ◌≤◌, length};
ghost use Rattle.ep_base.specs.Air.Heard.{framed};
ghost use Rattle.ep_base.specs.Cards.TypeA.{levels as levels_of, level_part as level_part_of, ats_of};
ghost use Rattle.type_a.specs.Plan.{PlanFits};

use crate::reader::bcc;
use ep_base::{Buf, Wave};
use rf_frame::{Sent, put_sent};
use std::marker::Model;

/// A card of Type A.
#[derive(Debug, PartialEq, Eq, Drop)]
pub struct APlan {
    /// Its UID of 4, 7 or 10 bytes.
    pub uid: Buf<10>,
    /// The SAK with which it answers the selection of its last level.
    pub sak: u8,
    /// The code of the frame size that it takes.
    pub fsci: u8,
    /// Its frame waiting time integer.
    pub fwi: u8,
    /// The historical bytes of its ATS.
    pub historical: Buf<15>,
}

impl Model for APlan {
    ghost use Rattle.ep_base.specs.Cards.TypeA.{APlan};

    ghost Value = { APlan };

    ghost view = { λ p. record { uid = p.uid.items; sak = p.sak; fsci = p.fsci; fwi = p.fwi; historical = p.historical.items } };

    ghost inverse = { λ p. record { uid = record { items = p.uid }; sak = p.sak; fsci = p.fsci; fwi = p.fwi; historical = record { items = p.historical } } };
}

/// How many cascade levels a card's UID has.
pub(crate) fn levels(plan: &APlan) -> u8
    requires { PlanFits plan.now }
    ensures count { result ≡ levels_of plan.now.uid }
    ensures least { 1 ≤ result }
    ensures most { result ≤ 3 }
{
    (plan.uid.len() / 3) as u8
}

/// A card's answer at a level: four bytes and BCC.
pub(crate) fn level_part(plan: &APlan, level: u8) -> Buf<5>
    requires fits { PlanFits plan.now }
    requires level { (1 ≤ level) × (level ≤ levels_of plan.now.uid) }
    ensures part { result.items ≡ level_part_of plan.now.uid level }
    ensures five { length result.items ≡ 5 }
{
    let from = 3 * (usize::from(level) - 1);
    let uid = plan.uid.as_slice();
    let mut part = Buf::<5>::new();
    if level == levels(plan) {
        part.try_extend_from_slice(&uid[from..]).unwrap();
    } else {
        part.push(0x88);
        part.try_extend_from_slice(&uid[from..from + 3]).unwrap();
    }
    let sum = bcc(part.as_slice());
    part.push(sum);
    part
}

/// Sends a card's ATS.
pub(crate) fn put_ats(plan: &APlan, sent: &mut Sent)
    requires { PlanFits plan.now }
    ensures { sent.new ≡ framed Wave.A (ats_of plan.now) }
{
    let mut message = Buf::<18>::new();
    message.push(3 + plan.historical.len() as u8);
    message.push(0x20 + plan.fsci);
    message.push(16 * plan.fwi);
    message
        .try_extend_from_slice(plan.historical.as_slice())
        .unwrap();
    put_sent(Wave::A, message.as_slice(), sent);
}
