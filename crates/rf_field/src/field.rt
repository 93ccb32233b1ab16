//! Several cards in a field, under fates.
ghost use Rattle.std.specs.Prelude.{◌≡◌, All, map, if◌then◌else◌, is_ok, IsOk, IsErr, IfOk};
ghost use Rattle.ep_base.specs.Air.Fates.{gone_by, Bursts};
ghost use Rattle.ep_base.specs.Streams.Causes.{HasCause};
ghost use Rattle.ep_base.specs.Air.Medium.{told};
ghost use Rattle.ep_base.specs.Cards.Field as plain;
ghost use Rattle.rf_frame.specs.Meaning.{maybe_heard, heard_into};
ghost use Rattle.rf_field.specs.Airs.{aired_of};
ghost use Rattle.rf_field.specs.Fields.{field_of, hears_by};
ghost use Rattle.rf_field.specs.Meaning.{IsRun, way_of, fate_of, exchange_fates};
ghost use Rattle.std.specs.Option.{option_map};
ghost use Rattle.rf_field.specs.Plans.{PlanFits, placed_plan, type_a_plan};
ghost use Rattle.rf_field.specs.Presences.{lists_of};

use crate::aired::{Aired, Sound};
use crate::crowd::{hear_all, leave_all, place_all, reset_all};
use crate::fates::{Fate, FateRun, Way};
use crate::placed::Placed;
use crate::plans::CardPlan;
use crate::presence::Presence;
use crate::runs::Fates;
use crate::ways::burst_down;
use card_image::CardLog;
use ep_base::{Buf, FrameBuf, NoMemory, Wave};
use rf_frame::{Burst, Heard, Medium, RfFailed};
use std::alloc::Global;
use type_a::APlan;

/// The cards of a transaction in the field of a reader. A reset begins the next round, and each exchange takes the next
/// fate; all frames pass after the last. The cards hear a frame one after another in the order of their numbers, which
/// run from 1, and a card hears none while the log has no free record. Equal answers are heard as one frame.
#[derive(Drop)]
pub struct Field {
    cards: Vec<Placed>,
    presence: Presence,
    log: CardLog,
    fates: Fates,
    // Whether the cards left.
    gone: bool,
    rounds: u64,
    exchanges: u64,
    // What was in the air last.
    aired: Aired,
}

impl Field {
    /// A field of these cards, at most 4, of which none is present before the first reset. The image in place k was
    /// opened with the number k, counted from 1. No two cards of one kind have the same UID or PUPI. `presence` names
    /// the cards that are present in each round: the last list holds for all rounds after it, and without a list all
    /// cards are present. Each run of fates has at least one exchange. The log has room for so many records.
    ///
    /// Errors: `NoMemory`.
    pub fn open(
        alloc: Global,
        cards: Vec<CardPlan>,
        presence: Vec<Buf<4>>,
        fates: Vec<FateRun>,
        room: usize,
    ) -> Result<Field, NoMemory>
        requires plans { All PlanFits cards.items }
        requires runs { All IsRun fates.items }
        ensures ok { IfOk result (λ f. field_of f ≡ plain.new_field (map placed_plan cards.items) (lists_of presence.items) (exchange_fates fates.items) room) }
    {
        let cards = place_all(alloc, cards)?;
        let log = CardLog::open(alloc, room)?;
        Ok(Field {
            cards,
            presence: Presence::of(presence),
            log,
            fates: Fates::of(fates),
            gone: false,
            rounds: 0,
            exchanges: 0,
            aired: Aired::nothing(),
        })
    }

    /// The commands that the cards executed, each with the number of its card.
    pub fn log(&self) -> &CardLog
        ensures records { result.now.0 ≡ (field_of self.now).log }
        ensures room { result.now.1 ≡ (field_of self.now).room }
    {
        &self.log
    }

    /// How many rounds were begun. The count stays at the end of its type.
    pub fn rounds(&self) -> u64
        ensures value { result ≡ (field_of self.now).rounds }
    {
        self.rounds
    }

    /// How many exchanges were made. The count stays at the end of its type.
    pub fn exchanges(&self) -> u64
        ensures value { result ≡ (field_of self.now).exchanges }
    {
        self.exchanges
    }

    /// Whether the cards left for the rest of the transaction.
    pub fn gone(&self) -> bool
        ensures value { result ≡ (field_of self.now).air.gone }
    {
        self.gone
    }

    /// The plan of the card with this number, counted from 1, as it was given to `open`. `None` exactly where there is no
    /// card of that number or it isn't one of Type A.
    pub fn type_a(&self, card: u8) -> Option<&APlan>
        ensures plan { option_map (λ p. p.now) result ≡ type_a_plan card (field_of self.now).cards }
    {
        if card == 0 {
            return None;
        }
        match self.cards.get(usize::from(card) - 1) {
            None => None,
            Some(placed) => placed.plan(),
        }
    }

    // What is in the air after a frame on which a burst falls.
    fn carry_burst(&mut self, burst: Burst, wave: Wave, frame: &FrameBuf)
        ensures field { field_of self.new ≡ record (field_of self.old) {
          cards = (hears_by (field_of self.old) (Bursts burst.start burst.mask) wave frame.now.items).cards;
          log = (hears_by (field_of self.old) (Bursts burst.start burst.mask) wave frame.now.items).log;
        } }
        ensures aired { aired_of self.new.aired ≡ plain.joined (hears_by (field_of self.old) (Bursts burst.start burst.mask) wave frame.now.items).answers }
    {
        match burst_down(wave, frame, burst) {
            None => self.aired.sound = Sound::Silence,
            Some(frame) => hear_all(
                &mut self.cards,
                wave,
                &frame,
                &mut self.log,
                &mut self.aired,
            ),
        }
    }

    // What is in the air after a frame that takes this way down.
    fn carry_down(&mut self, way: Way, wave: Wave, frame: &FrameBuf)
        ensures field { field_of self.new ≡ record (field_of self.old) {
          cards = (hears_by (field_of self.old) (way_of way) wave frame.now.items).cards;
          log = (hears_by (field_of self.old) (way_of way) wave frame.now.items).log;
        } }
        ensures aired { aired_of self.new.aired ≡ plain.joined (hears_by (field_of self.old) (way_of way) wave frame.now.items).answers }
    {
        match way {
            Way::Pass => hear_all(&mut self.cards, wave, frame, &mut self.log, &mut self.aired),
            Way::Burst(burst) => self.carry_burst(burst, wave, frame),
            Way::Lose | Way::Leave => self.aired.sound = Sound::Silence,
        }
    }

    // The cards leave where this fate says so.
    fn depart(&mut self, fate: Fate)
        ensures field { field_of self.new ≡ record (field_of self.old) {
          cards = (if plain.away (fate_of fate) then plain.left_by (field_of self.old).cards else (field_of self.old).cards);
          air = record { fates = (field_of self.old).air.fates; gone = gone_by (gone_by (field_of self.old).air.gone (way_of fate.down)) (way_of fate.up) };
        } }
        ensures aired { aired_of self.new.aired ≡ aired_of self.old.aired }
    {
        if fate.down == Way::Leave || fate.up == Way::Leave {
            leave_all(&mut self.cards);
            self.gone = true;
        }
    }
}

impl Medium for Field {
    ghost use Rattle.ep_base.specs.Cards.Field as plain;
    ghost use Rattle.ep_base.specs.Air.Medium.{told};
    ghost use Rattle.rf_field.specs.Fields.{field_of};

    ghost State = { plain.Field };

    ghost state = { field_of };

    ghost steps = { told plain.field };

    ghost faults = { λ f. 0 };

    /// Begins the next round: the cards of the next presence list are present, idle, and without a selected
    /// application. There is no error.
    fn reset(&mut self) -> Result<(), RfFailed>
        ensures step { (told plain.field).resets (field_of self.old) (is_ok result) (field_of self.new) }
        ensures cause { HasCause 0 0 (IsErr result) }
        ensures always { IsOk result }
    {
        reset_all(&mut self.cards, self.gone, &self.presence);
        self.presence.advance();
        self.rounds = self.rounds.saturating_add(1);
        Ok(())
    }

    /// Makes one exchange. There is no error.
    fn send(&mut self, wave: Wave, frame: &FrameBuf, wait: u32) -> Result<Heard, RfFailed>
        ensures step { (told plain.field).sends (field_of self.old) wave frame.now.items wait (maybe_heard result) (field_of self.new) }
        ensures cause { HasCause 0 0 (IsErr result) }
        ensures always { IsOk result }
    {
        let mut heard = Heard::Silence;
        self.send_into(wave, frame, wait, &mut heard)?;
        Ok(heard)
    }

    /// Makes one exchange, and writes what is heard in place of what stood there. There is no error.
    fn send_into(
        &mut self,
        wave: Wave,
        frame: &FrameBuf,
        _wait: u32,
        heard: &mut Heard,
    ) -> Result<(), RfFailed>
        ensures step { (told plain.field).sends (field_of self.old) wave frame.now.items _wait (heard_into result heard.new) (field_of self.new) }
        ensures cause { HasCause 0 0 (IsErr result) }
        ensures always { IsOk result }
    {
        let fate = self.fates.next();
        self.carry_down(fate.down, wave, frame);
        self.depart(fate);
        self.exchanges = self.exchanges.saturating_add(1);
        self.aired.come_back(fate.up);
        self.aired.put(heard);
        Ok(())
    }
}
