//! The cards of a field together.
ghost use Rattle.std.specs.Prelude.{◌≡◌, ◌++◌, map, All, IfOk};
ghost use Rattle.ep_base.specs.Cards.Field.{one_hears, all_reset, left_by, joined};
ghost use Rattle.rf_field.specs.declared.aired.Sound.TheVariants as sounds;
ghost use Rattle.rf_field.specs.Airs.{aired_of, with_answer};
ghost use Rattle.rf_field.specs.Fields.{hear_all as all_heard};
ghost use Rattle.rf_field.specs.Plans.{PlanFits, placed_plan};

use crate::aired::{Aired, Sound};
use crate::placed::Placed;
use crate::plans::CardPlan;
use crate::presence::Presence;
use card_image::CardLog;
use ep_base::{FrameBuf, NoMemory, Wave};
use rf_frame::Sent;
use std::alloc::Global;

// The cards of these plans, none of them present.
pub(crate) fn place_all(alloc: Global, plans: Vec<CardPlan>) -> Result<Vec<Placed>, NoMemory>
    requires { All PlanFits plans.items }
    ensures { IfOk result (λ v. v.items ≡ map placed_plan plans.items) }
{
    let mut cards = Vec::new(alloc);
    for plan in plans {
        if cards.push(Placed::of(plan)).is_err() {
            return Err(NoMemory);
        }
    }
    Ok(cards)
}

// The first card that answers hears a frame: nothing is in the air before.
fn hear_first(card: &mut Placed, wave: Wave, frame: &FrameBuf, log: &mut CardLog, aired: &mut Aired)
    requires { aired.old.sound ≡ sounds.Silence }
    ensures card { card.new ≡ (one_hears log.old.1 wave frame.now.items log.old.0 card.old).card }
    ensures logged { log.new ≡ (log.old.0 ++ (one_hears log.old.1 wave frame.now.items log.old.0 card.old).executed, log.old.1) }
    ensures aired { aired_of aired.new ≡ with_answer (aired_of aired.old) (one_hears log.old.1 wave frame.now.items log.old.0 card.old).answer }
{
    if card.hear(wave, frame, log, &mut aired.sent) {
        aired.sound = Sound::Frame;
    }
}

// One more card hears a frame.
fn hear_more(card: &mut Placed, wave: Wave, frame: &FrameBuf, log: &mut CardLog, aired: &mut Aired)
    ensures card { card.new ≡ (one_hears log.old.1 wave frame.now.items log.old.0 card.old).card }
    ensures logged { log.new ≡ (log.old.0 ++ (one_hears log.old.1 wave frame.now.items log.old.0 card.old).executed, log.old.1) }
    ensures aired { aired_of aired.new ≡ with_answer (aired_of aired.old) (one_hears log.old.1 wave frame.now.items log.old.0 card.old).answer }
{
    let mut other = Sent::blank();
    if card.hear(wave, frame, log, &mut other) {
        aired.add(&other);
    }
}

// What is in the air once one more card heard a frame.
fn hear_one(card: &mut Placed, wave: Wave, frame: &FrameBuf, log: &mut CardLog, aired: &mut Aired)
    ensures card { card.new ≡ (one_hears log.old.1 wave frame.now.items log.old.0 card.old).card }
    ensures logged { log.new ≡ (log.old.0 ++ (one_hears log.old.1 wave frame.now.items log.old.0 card.old).executed, log.old.1) }
    ensures aired { aired_of aired.new ≡ with_answer (aired_of aired.old) (one_hears log.old.1 wave frame.now.items log.old.0 card.old).answer }
{
    match aired.sound {
        Sound::Silence => hear_first(card, wave, frame, log, aired),
        Sound::Noise | Sound::Overlap | Sound::Frame => hear_more(card, wave, frame, log, aired),
    }
}

// What is in the air after the cards heard a frame one after another.
pub(crate) fn hear_all(
    cards: &mut [Placed],
    wave: Wave,
    frame: &FrameBuf,
    log: &mut CardLog,
    aired: &mut Aired,
)
    ensures cards { cards.new ≡ (all_heard wave frame.now.items log.old cards.old).cards }
    ensures logged { log.new ≡ ((all_heard wave frame.now.items log.old cards.old).log, log.old.1) }
    ensures aired { aired_of aired.new ≡ joined (all_heard wave frame.now.items log.old cards.old).answers }
{
    aired.sound = Sound::Silence;
    for card in cards.iter_mut() {
        hear_one(card, wave, frame, log, aired);
    }
}

// The next round began.
pub(crate) fn reset_all(cards: &mut [Placed], gone: bool, presence: &Presence)
    ensures { cards.new ≡ all_reset gone presence.now 1 cards.old }
{
    for (place, card) in cards.iter_mut().enumerate() {
        card.reset(presence.has(gone, place + 1));
    }
}

// All cards left.
pub(crate) fn leave_all(cards: &mut [Placed])
    ensures { cards.new ≡ left_by cards.old }
{
    for card in cards.iter_mut() {
        card.leave();
    }
}
