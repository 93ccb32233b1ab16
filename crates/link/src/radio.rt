//! The transport over a medium: poll rounds until a card comes, a link to it, and how the link is closed.
ghost use Rattle.std.specs.Prelude.{◌≡◌, ◌<◌, Bool, true, false, is_ok, is_some, None, Some, IsOk, IsErr, IsErrOf};
ghost use Rattle.std.specs.Option.{ForSome};
ghost use Rattle.block_reader.specs.Stands.{held};
ghost use Rattle.ep_base.specs.Air.Fates.{AreFates};
ghost use Rattle.ep_base.specs.Link.Carry.{ActsAs, AtRest, OfLink};
ghost use Rattle.ep_base.specs.Streams.Causes.{HasCause};
ghost use Rattle.ep_base.specs.Poll.Radio.{ClosesOver, OpenLink, Radio, RadioPresents, TransactsOver, has_collision, radio};
ghost use Rattle.ep_base.specs.Link.Wire.{Wire};
ghost use Rattle.poll_activate.specs.Meaning.{ends_of};
ghost use Rattle.link.specs.Answers.{presentation_of, reply_of};
ghost use Rattle.link.specs.Heard.{AsHeard};
ghost use Rattle.link.specs.Radio.{ClosesWire, IsStill, OverWire, link_of, radio_at};

use crate::{LinkEnd, PresentEnd, Presented, Transport, carry};
use apdu::{Command, Response};
use block_reader::ReaderEnd;
use poll_activate::{PollEnd, Rounds, poll};
use rf_frame::{Medium, RfFailed, RoundEnd};

/// A transport over a medium, with a reader of one frame size. It holds the reader's end of the open link, where there
/// is one, between two commands.
#[derive(Drop)]
pub struct RfTransport<M> {
    medium: M,
    fsdi: u8,
    link: Option<ReaderEnd>,
    ghost code: { fsdi < 16 },
    ghost resting: { ForSome link (λ e. IsStill (held e)) },
}

/// Whether one of these rounds ended as a collision.
fn collided(rounds: &[RoundEnd]) -> bool
    ensures { result ≡ has_collision (ends_of rounds.now) }
{
    for end in rounds {
        if let RoundEnd::Collision = end {
            return true;
        }
    }
    false
}

impl<M: Medium> RfTransport<M> {
    /// A transport over this medium, with a reader of this FSDI, below 16. No card is presented yet.
    pub fn open(medium: M, fsdi: u8) -> RfTransport<M>
        requires { fsdi < 16 }
        ensures medium { result.medium ≡ medium }
        ensures fsdi { result.fsdi ≡ fsdi }
        ensures link { result.link ≡ None }
    {
        RfTransport {
            medium,
            fsdi,
            link: None,
        }
    }

    /// The medium.
    pub fn medium(&self) -> &M
        ensures { result.now ≡ self.now.medium }
    {
        &self.medium
    }
}

impl<M: Medium> Transport for RfTransport<M> {
    ghost State = { Radio M.State };

    ghost state = { λ t. radio_at (M.state t.medium) t.fsdi t.link };

    ghost steps = { radio M.steps };

    ghost presented = { λ t. is_some t.link };

    ghost faults = { λ t. M.faults t.medium };

    /// Makes poll rounds until one ends with a card, at most 64, and opens a link to it. A link that was open is left.
    ///
    /// Errors: `NoCard` after 64 rounds without a card, `Device` where the medium failed.
    fn present(&mut self) -> Result<Presented, PresentEnd>
        ensures step { RadioPresents M.steps (radio_at (M.state self.old.medium) self.old.fsdi self.old.link) (presentation_of result)
            (radio_at (M.state self.new.medium) self.new.fsdi self.new.link) }
        ensures presented { is_some self.new.link ≡ is_ok result }
        ensures cause { HasCause (M.faults self.old.medium) (M.faults self.new.medium) (IsErrOf result PresentEnd.Device) }
    {
        self.link = None;
        let mut rounds = Rounds::new();
        let polled = poll(&mut self.medium, self.fsdi, &mut rounds);
        let collision = collided(rounds.as_slice());
        match polled {
            Ok(card) => {
                self.link = Some(ReaderEnd::open(&card, self.fsdi));
                Ok(Presented { card, collision })
            }
            Err(PollEnd::NoCard) => Err(PresentEnd::NoCard { collision }),
            Err(PollEnd::Device) => Err(PresentEnd::Device),
        }
    }

    /// Sends the command's blocks, and hears until the command ends. After an error no link is left. Over a medium that
    /// acts as a wire the command is executed once, or at most once where the link is spent, and there is no other error.
    ///
    /// Errors: `Spent` with 3 at the third bad hearing since the toggle, and `Breach` by the reader's table (ISO/IEC
    /// 14443-4), with the frame that was heard, the reader's number, its phase, and its count of S(WTX); `Device` where the
    /// medium failed.
    fn transact(&mut self, command: &Command) -> Result<Response, LinkEnd>
        requires { is_some self.old.link ≡ true }
        ensures step { TransactsOver M.steps (link_of self.old.link) (radio_at (M.state self.old.medium) self.old.fsdi self.old.link) command.now (reply_of result)
            (radio_at (M.state self.new.medium) self.new.fsdi self.new.link) }
        ensures presented { is_some self.new.link ≡ is_ok result }
        ensures cause { HasCause (M.faults self.old.medium) (M.faults self.new.medium) (IsErrOf result LinkEnd.Device) }
        ensures as_heard { (l : OpenLink) → link_of self.old.link ≡ Some l →
            AsHeard M.steps l command.now (M.state self.old.medium) result (link_of self.new.link) (M.state self.new.medium) }
        ensures once { (good : M.State → Bool) (shown : M.State → Wire) (l : OpenLink) → link_of self.old.link ≡ Some l → ActsAs M.steps l.set good shown →
            good (M.state self.old.medium) ≡ true → OfLink l.set (shown (M.state self.old.medium)) →
            AtRest l.reader (shown (M.state self.old.medium)).party.card →
            OverWire result l.set (link_of self.new.link) (shown (M.state self.old.medium)) command.now (shown (M.state self.new.medium))
            × (good (M.state self.new.medium) ≡ true) }
    {
        let mut end = self.link.take().unwrap();
        let response = carry(&mut end, &mut self.medium, command)?;
        self.link = Some(end);
        Ok(response)
    }

    /// Sends S(DESELECT), and ignores what is heard. No link is left. Over a medium that acts as a wire this is one
    /// exchange, in which nothing is executed, and there is no error.
    ///
    /// Errors: the medium failed.
    fn close(&mut self) -> Result<(), RfFailed>
        requires { is_some self.old.link ≡ true }
        ensures step { ClosesOver M.steps (link_of self.old.link) (radio_at (M.state self.old.medium) self.old.fsdi self.old.link) (is_ok result)
            (radio_at (M.state self.new.medium) self.new.fsdi self.new.link) }
        ensures presented { is_some self.new.link ≡ false }
        ensures cause { HasCause (M.faults self.old.medium) (M.faults self.new.medium) (IsErr result) }
        ensures once { (good : M.State → Bool) (shown : M.State → Wire) (l : OpenLink) → link_of self.old.link ≡ Some l → ActsAs M.steps l.set good shown →
            good (M.state self.old.medium) ≡ true → AreFates (shown (M.state self.old.medium)).air.fates →
            IsOk result × ClosesWire l.set (shown (M.state self.old.medium)) (shown (M.state self.new.medium))
            × (good (M.state self.new.medium) ≡ true) }
    {
        let mut end = self.link.take().unwrap();
        let ask = end.deselect();
        self.medium.send(ask.wave, &ask.frame, ask.wait)?;
        Ok(())
    }
}
