//! A card in the block protocol.
ghost use Rattle.std.specs.Prelude.{◌≡◌, ◌<◌, ◌≤◌, ◌++◌, length};
ghost use Rattle.std.specs.Option.{option_copied};
ghost use Rattle.ep_base.specs.Cards.CardAnswer.{deselected};
ghost use Rattle.ep_base.specs.Link.CardEnd.{is_halted, fresh_card};
ghost use Rattle.ep_base.specs.Cards.Field.{opens_link};
ghost use Rattle.ep_base.specs.Air.Heard.{wave_of_kind};
ghost use Rattle.ep_base.specs.Link.Wire.{takes_frame};
ghost use Rattle.rf_frame.specs.Meaning.{answer_if};
ghost use Rattle.rf_field.specs.Parties.{party_of, takes_awake};

use block_card::{CardEnd, Step};
use card_image::{CardImage, CardLog};
use ep_base::{CardKind, FRAME_16, FrameBuf, Wave};
use rf_frame::{Sent, open_frame};

// A card in the block protocol: its end of the link, and the image that executes its commands.
#[derive(Drop)]
pub(crate) struct Party {
    end: CardEnd,
    image: CardImage,
}

impl Party {
    // A card that was just activated by a reader with frames of 16 to 256 bytes.
    pub(crate) fn open(kind: CardKind, fsd: u16, image: CardImage) -> Party
        requires least { 16 ≤ fsd }
        requires most { fsd ≤ FRAME_16 }
        ensures { party_of result ≡ record { kind = kind; fsd = fsd; card = fresh_card; image = image } }
    {
        Party {
            end: CardEnd::open(kind, fsd),
            image,
        }
    }

    // The block protocol is opened anew, by a reader with frames of 16 to 256 bytes.
    pub(crate) fn reopen(&mut self, fsd: u16)
        requires least { 16 ≤ fsd }
        requires most { fsd ≤ FRAME_16 }
        ensures { party_of self.new ≡ opens_link (party_of self.old) fsd }
    {
        self.end.reopen(fsd);
    }

    // The next round began: the card is in no link, and no application is selected.
    pub(crate) fn reset(&mut self)
        ensures { party_of self.new ≡ record (opens_link (party_of self.old) (party_of self.old).fsd) { image = deselected (party_of self.old).image } }
    {
        let fsd = self.end.fsd();
        self.reopen(fsd);
        self.image.reset_selection();
    }

    // Whether the block protocol was ended by S(DESELECT).
    pub(crate) fn halted(&self) -> bool
        ensures { result ≡ is_halted (party_of self.now).card }
    {
        self.end.halted()
    }

    // The card takes a frame of its own wave, which was damaged where there is no payload: whether it sends something. What
    // it sends is written.
    fn take(&mut self, payload: Option<&[u8]>, log: &mut CardLog, frame: &mut FrameBuf) -> bool
        requires { length log.old.0 < log.old.1 }
        ensures party { party_of self.new ≡ (takes_awake (party_of self.old) (option_copied payload.entry)).party }
        ensures logged { log.new ≡ (log.old.0 ++ (takes_awake (party_of self.old) (option_copied payload.entry)).executed, log.old.1) }
        ensures answer { answer_if result (record { wave = wave_of_kind (party_of self.old).kind; bytes = frame.new.items }) ≡ (takes_awake (party_of self.old) (option_copied payload.entry)).answer }
    {
        match self.end.receive_into(payload, frame) {
            Step::Mute => false,
            Step::Send => true,
            Step::Execute => {
                let answered = self.image.answer(&self.end.command(), log);
                self.end
                    .answer_into(&answered.response, answered.wtx, answered.wtxm, frame);
                true
            }
        }
    }

    // Takes a frame: whether the card sends something after it. What it sends is written, and what it executes is listed
    // in the log.
    pub(crate) fn hear(
        &mut self,
        wave: Wave,
        frame: &FrameBuf,
        log: &mut CardLog,
        sent: &mut Sent,
    ) -> bool
        requires { length log.old.0 < log.old.1 }
        ensures party { party_of self.new ≡ (takes_frame (party_of self.old) wave frame.now.items).party }
        ensures logged { log.new ≡ (log.old.0 ++ (takes_frame (party_of self.old) wave frame.now.items).executed, log.old.1) }
        ensures answer { answer_if result sent.new ≡ (takes_frame (party_of self.old) wave frame.now.items).answer }
    {
        if wave != self.end.wave() {
            return false;
        }
        sent.wave = wave;
        self.take(open_frame(wave, frame), log, &mut sent.frame)
    }
}
