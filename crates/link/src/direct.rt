//! The perfect channel: one card that hears each command and is heard.
ghost use Rattle.std.specs.Prelude.{◌≡◌, ◌+◌, ◌-◌, ◌^◌, ◌≤◌, ◌↔◌, min, true, false, is_ok, length, IsOk, IsErr, IsErrOf, IfErr, if◌then◌else◌};
ghost use Rattle.ep_base.specs.Streams.Causes.{HasCause};
ghost use Rattle.ep_base.specs.Cards.Direct.{direct};
ghost use Rattle.link.specs.Answers.{presentation_of, reply_of};

use crate::{LinkEnd, PresentEnd, Presented, Transport};
use apdu::{Command, Response};
use card_image::{CardImage, CardLog};
use rf_frame::{Activated, RfFailed};

/// The perfect channel with one card: each presentation gives the card, each command is answered by its image and
/// listed in the log.
#[derive(Drop)]
pub struct Direct {
    card: Activated,
    image: CardImage,
    log: CardLog,
    presented: bool,
    faults: u64,
}

impl Direct {
    ghost use Rattle.ep_base.specs.Cards.CardAnswer.{IsImage};
    ghost use Rattle.link.specs.Direct.{direct_of, is_presented, faults_of};

    /// The channel to this card, whose image answers and whose commands go to the log. The card isn't presented yet.
    pub fn open(card: Activated, image: CardImage, log: CardLog) -> Direct
        ensures state { direct_of result ≡ record { card = card; image = image; log = log.0; room = log.1 } }
        ensures presented { is_presented result ≡ false }
        ensures faults { faults_of result ≡ 0 }
    {
        Direct {
            card,
            image,
            log,
            presented: false,
            faults: 0,
        }
    }

    /// The commands that the card executed.
    pub fn log(&self) -> &CardLog
        ensures records { result.now.0 ≡ (direct_of self.now).log }
        ensures room { result.now.1 ≡ (direct_of self.now).room }
    {
        &self.log
    }

    /// The number of its card's image.
    pub fn number(&self) -> u8
        ensures value { result ≡ (direct_of self.now).image.number }
        ensures limits { IsImage (direct_of self.now).image }
    {
        self.image.number()
    }
}

impl Transport for Direct {
    ghost use Rattle.ep_base.specs.Cards.Direct.{Direct as Channel, direct};
    ghost use Rattle.link.specs.Direct.{direct_of, is_presented, faults_of};

    ghost State = { Channel };

    ghost state = { direct_of };

    ghost steps = { direct };

    ghost presented = { is_presented };

    ghost faults = { faults_of };

    /// Presents the card, for which no application is selected then. There is no error.
    fn present(&mut self) -> Result<Presented, PresentEnd>
        ensures step { direct.presents (direct_of self.old) (presentation_of result) (direct_of self.new) }
        ensures presented { is_presented self.new ≡ is_ok result }
        ensures cause { HasCause (faults_of self.old) (faults_of self.new) (IsErrOf result PresentEnd.Device) }
        ensures always { IsOk result }
        ensures count { faults_of self.new ≡ faults_of self.old }
    {
        self.image.reset_selection();
        self.presented = true;
        Ok(Presented {
            card: self.card.copy(),
            collision: false,
        })
    }

    /// The image's answer. The one error is `Device`, exactly where the log has no free record; the image isn't asked
    /// then, and the count of faults rises.
    fn transact(&mut self, command: &Command) -> Result<Response, LinkEnd>
        requires { is_presented self.old ≡ true }
        ensures step { direct.transacts (direct_of self.old) command.now (reply_of result) (direct_of self.new) }
        ensures presented { is_presented self.new ≡ is_ok result }
        ensures cause { HasCause (faults_of self.old) (faults_of self.new) (IsErrOf result LinkEnd.Device) }
        ensures full { IsErrOf result LinkEnd.Device ↔ ((direct_of self.old).room ≤ length (direct_of self.old).log) }
        ensures one_error { IfErr result (λ e. e ≡ LinkEnd.Device) }
        ensures count { faults_of self.new ≡ (if is_ok result then faults_of self.old else min (faults_of self.old + 1) (2 ^ 64 - 1)) }
    {
        if self.log.spare() == 0 {
            self.faults = self.faults.saturating_add(1);
            self.presented = false;
            return Err(LinkEnd::Device);
        }
        let answered = self.image.answer(command, &mut self.log);
        Ok(answered.response)
    }

    /// Lets the card go. There is no error.
    fn close(&mut self) -> Result<(), RfFailed>
        ensures step { direct.closes (direct_of self.old) (is_ok result) (direct_of self.new) }
        ensures presented { is_presented self.new ≡ false }
        ensures cause { HasCause (faults_of self.old) (faults_of self.new) (IsErr result) }
        ensures always { IsOk result }
        ensures count { faults_of self.new ≡ faults_of self.old }
    {
        self.presented = false;
        Ok(())
    }
}
