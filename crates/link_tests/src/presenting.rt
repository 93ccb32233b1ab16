//! Presentations, commands and closings at a field, whatever becomes of the frames.
ghost use Rattle.std.specs.Prelude.{◌≡◌, ◌<◌, ◌≤◌, ◌+◌, ℕ, Some, None, true, is_ok, IsOk, IfOk, IsErrOf, length};
ghost use Rattle.ep_base.specs.Cards.Field as plain;
ghost use Rattle.ep_base.specs.Air.Medium.{told};
ghost use Rattle.ep_base.specs.Poll.Radio.{OpenLink, RadioPresents, link_to};
ghost use Rattle.ep_base.specs.Cards.Lawful.{Lawful};
ghost use Rattle.ep_base.specs.Cards.LinkedField.{SameCards};
ghost use Rattle.link.specs.Answers.{presentation_of};
ghost use Rattle.rf_field.specs.Fields.{field_of};
ghost use Rattle.link_tests.specs.OneCommand.{IsLinked, IsUsable, LinksTo, OneCommand, OthersStay, closed_by};
ghost use Rattle.link_tests.specs.Reader.{at, is_presented};

use crate::FieldReader;
use apdu::{Command, Response};
use card_image::CardLog;
use link::{LinkEnd, PresentEnd, Presented, RfTransport, Transport};
use rf_field::Field;
use rf_frame::RfFailed;

/// Each call leaves the reader usable: its field is one of a document's cards, and an open link is one with a card of it.
impl FieldReader {
    /// A reader of this FSDI, below 16, at a field of a document's cards. No card is presented yet.
    pub fn open(field: Field, fsdi: u8) -> FieldReader
        requires code { fsdi < 16 }
        requires lawful { Lawful (field_of field) }
        ensures usable { IsUsable (at result) }
        ensures state { at result ≡ record { medium = field_of field; fsdi = fsdi; link = None } }
    {
        FieldReader {
            transport: RfTransport::open(field, fsdi),
        }
    }

    /// The field.
    pub fn field(&self) -> &Field
        ensures { field_of result.now ≡ (at self.now).medium }
    {
        self.transport.medium()
    }

    /// What the cards executed, each command with its card's number.
    pub fn log(&self) -> &CardLog
        ensures records { result.now.0 ≡ (at self.now).medium.log }
        ensures room { result.now.1 ≡ (at self.now).medium.room }
    {
        self.transport.medium().log()
    }

    /// Makes poll rounds until one ends with a card, at most 64, and opens a link to it. Nothing is executed. The link is
    /// with the card that was found, and with no other.
    ///
    /// Errors: `NoCard` after 64 rounds without a card, and no other.
    pub fn present(&mut self) -> Result<Presented, PresentEnd>
        requires usable { IsUsable (at self.old) }
        ensures usable { IsUsable (at self.new) }
        ensures rounds { RadioPresents (told plain.field) (at self.old) (presentation_of result) (at self.new) }
        ensures quiet { SameCards (at self.old).medium (at self.new).medium }
        ensures presented { is_presented self.new ≡ is_ok result }
        ensures device { IsErrOf result PresentEnd.Device → ⊥ }
        ensures linked { IfOk result (λ p. LinksTo (at self.old).fsdi p.card (at self.new).medium × ((at self.new).link ≡ Some (link_to (at self.old).fsdi p.card))) }
        ensures reader { (at self.new).fsdi ≡ (at self.old).fsdi }
    {
        self.transport.present()
    }

    /// Sends a command to the card that is presented, where the log has two free records. Whatever becomes of the frames, it
    /// is answered with the response of this card's image and was executed exactly once, and the link is open for the next
    /// command; or the link is spent after three bad hearings since the reader's last toggle, and it was executed at most
    /// once. No block is outside the rules, and no device fails.
    ///
    /// Errors: `Spent` with 3.
    pub fn transact(&mut self, command: &Command) -> Result<Response, LinkEnd>
        requires presented { is_presented self.old ≡ true }
        requires usable { IsUsable (at self.old) }
        requires room { length (at self.old).medium.log + 2 ≤ (at self.old).medium.room }
        ensures usable { IsUsable (at self.new) }
        ensures linked { (l : OpenLink) → (at self.old).link ≡ Some l → (n : ℕ) × IsLinked l n (at self.old).medium }
        ensures once { (l : OpenLink) (n : ℕ) → (at self.old).link ≡ Some l → IsLinked l n (at self.old).medium →
            OneCommand result l.set n (at self.old).medium command.now (at self.new).link (at self.new).medium }
        ensures others { (l : OpenLink) (n : ℕ) → (at self.old).link ≡ Some l → IsLinked l n (at self.old).medium →
            OthersStay n (at self.old).medium (at self.new).medium }
        ensures presented { is_presented self.new ≡ is_ok result }
        ensures reader { (at self.new).fsdi ≡ (at self.old).fsdi }
    {
        self.transport.transact(command)
    }

    /// Lets the card go by one exchange, that of S(DESELECT), whatever is heard. Nothing is executed. There is no error.
    pub fn close(&mut self) -> Result<(), RfFailed>
        requires presented { is_presented self.old ≡ true }
        requires usable { IsUsable (at self.old) }
        ensures usable { IsUsable (at self.new) }
        ensures always { IsOk result }
        ensures once { (l : OpenLink) → (at self.old).link ≡ Some l → (at self.new).medium ≡ closed_by l.set (at self.old).medium }
        ensures quiet { (at self.new).medium.log ≡ (at self.old).medium.log }
        ensures link { (at self.new).link ≡ None }
        ensures reader { (at self.new).fsdi ≡ (at self.old).fsdi }
    {
        self.transport.close()
    }
}
