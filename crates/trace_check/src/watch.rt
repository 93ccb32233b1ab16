//! A lane as the checker watches it, one line at a time.
ghost use Rattle.std.specs.Prelude.{◌≡◌, ◌<◌, IfErr};
ghost use Rattle.ep_base.specs.Link.LinkFrames.{heard_block};
ghost use Rattle.rf_frame.specs.Meaning.{heard_of};
ghost use Rattle.trace_check.specs.Meaning.{exchange_of, inf_of};
ghost use Rattle.trace_check.specs.Watch as plain;

use crate::link::{Inf, Link, ReadBlock};
use crate::parts::{Begun, Parts};
use crate::round::Round;
use crate::tally::{Tally, same};
use crate::{Heard, Rule, Shown, TraceLine};
use block_pcb::Block;
use rf_frame::Ask;

/// Where a lane stands.
#[derive(Drop)]
pub(crate) enum Watch {
    /// Between a round, or a link, and the next round.
    Ready,
    /// In a round.
    InRound(Round),
    /// In a link with no command open, with this block number.
    Resting(Link, bool),
    /// A link is being closed.
    Closing(Link),
    /// The next part of a command is due, with this block number.
    Between(Link, bool, Begun),
    /// A part of a command was sent, and nothing of its response came.
    Sending(Tally, Parts),
    /// So many bytes of a response came, and more follow.
    Receiving(Tally, u16),
}

/// A command goes on with a part.
fn begin(link: Link, number: bool, sent: Begun, inf: &Inf<'_>) -> Option<Watch>
    ensures { result ≡ plain.begins link number sent (inf_of inf.now) }
{
    let size = link.part_size();
    let parts = sent.next(size, inf)?;
    Some(Watch::Sending(Tally::open(link, number), parts))
}

/// What follows a hearing while a command is sent.
fn hear_sending(tally: Tally, parts: Parts, heard: &Heard) -> Option<Watch>
    ensures { result ≡ plain.hears_sending tally parts (heard_block tally.set.kind tally.set.frames.reader (heard_of heard.now)) }
{
    match tally.read(heard) {
        ReadBlock::Bad => match tally.lose() {
            Some(tally) => Some(Watch::Sending(tally, parts)),
            None => Some(Watch::Ready),
        },
        ReadBlock::Intact(
            Block::I {
                number,
                chained,
                inf,
            },
        ) => {
            if !same(number == 1, tally.number()) || parts.is_chained() {
                return None;
            }
            tally.receive(0, chained, inf.len())
        }
        ReadBlock::Intact(Block::RAck { number }) => {
            if same(number == 1, tally.number()) {
                return take(tally, parts);
            }
            if !tally.is_lost() {
                return None;
            }
            Some(Watch::Sending(tally.again(), parts))
        }
        ReadBlock::Intact(Block::Wtx { wtxm, .. }) => {
            let tally = tally.wait(wtxm)?;
            Some(Watch::Sending(tally, parts))
        }
        _ => None,
    }
}

/// The card took a part, and the next one is due.
fn take(tally: Tally, parts: Parts) -> Option<Watch>
    ensures { result ≡ plain.taken tally parts }
{
    if !parts.is_chained() {
        return None;
    }
    let (link, number) = tally.toggle();
    Some(Watch::Between(link, number, parts.taken()))
}

/// What follows a hearing while a response comes.
fn hear_receiving(tally: Tally, got: u16, heard: &Heard) -> Option<Watch>
    ensures { result ≡ plain.hears_receiving tally got (heard_block tally.set.kind tally.set.frames.reader (heard_of heard.now)) }
{
    match tally.read(heard) {
        ReadBlock::Bad => match tally.lose() {
            Some(tally) => Some(Watch::Receiving(tally, got)),
            None => Some(Watch::Ready),
        },
        ReadBlock::Intact(
            Block::I {
                number,
                chained,
                inf,
            },
        ) => {
            if !same(number == 1, tally.number()) {
                return None;
            }
            tally.receive(got, chained, inf.len())
        }
        ReadBlock::Intact(Block::Wtx { wtxm, .. }) => {
            let tally = tally.wait(wtxm)?;
            Some(Watch::Receiving(tally, got))
        }
        _ => None,
    }
}

impl Watch {
    /// Whether a link is open.
    pub(crate) fn is_open(&self) -> bool
        ensures { result ≡ plain.is_open self.now }
    {
        match self {
            Watch::Ready | Watch::InRound(_) => false,
            _ => true,
        }
    }

    /// The lane once the frame that was sent settles what is asked: `None` where no command goes on so.
    pub(crate) fn settle(self, sent: &Shown, fsdi: u8) -> Option<Watch>
        requires { fsdi < 16 }
        ensures { result ≡ plain.settles fsdi self sent.now.wave sent.now.frame }
    {
        match self {
            Watch::Ready => Some(Watch::InRound(Round::open(fsdi))),
            Watch::Resting(link, number) => match link.part(sent.wave, &sent.frame) {
                None => Some(Watch::Closing(link)),
                Some(inf) => begin(link, number, Begun::new(), &inf),
            },
            Watch::Between(link, number, begun) => {
                let inf = link.part(sent.wave, &sent.frame)?;
                begin(link, number, begun, &inf)
            }
            other => Some(other),
        }
    }

    /// What is asked, where that is settled.
    pub(crate) fn ask(&self) -> Option<Ask>
        ensures { result ≡ plain.asks self.now }
    {
        match self {
            Watch::Ready | Watch::Resting(..) | Watch::Between(..) => None,
            Watch::InRound(round) => Some(round.ask()),
            Watch::Closing(link) => Some(link.ask(&Block::Deselect)),
            Watch::Sending(tally, parts) => {
                let number = u8::from(tally.number());
                let own = Block::I {
                    number,
                    chained: parts.is_chained(),
                    inf: parts.part(),
                };
                Some(tally.ask(&own, &Block::RNak { number }))
            }
            Watch::Receiving(tally, _) => {
                let ack = Block::RAck {
                    number: u8::from(tally.number()),
                };
                Some(tally.ask(&ack, &ack))
            }
        }
    }

    /// The lane after what was heard, unless that is outside the rules.
    pub(crate) fn hear(self, heard: &Heard) -> Option<Watch>
        ensures { result ≡ plain.hears self (heard_of heard.now) }
    {
        match self {
            Watch::Ready | Watch::Resting(..) | Watch::Between(..) => None,
            Watch::InRound(round) => Some(round.hear(heard)),
            Watch::Closing(_) => Some(Watch::Ready),
            Watch::Sending(tally, parts) => hear_sending(tally, parts, heard),
            Watch::Receiving(tally, got) => hear_receiving(tally, got, heard),
        }
    }

    /// The lane after one more line.
    ///
    /// Errors: the line isn't allowed, by this rule.
    pub(crate) fn step(self, line: &TraceLine, fsdi: u8) -> Result<Watch, Rule>
        requires { fsdi < 16 }
        ensures next { plain.step_of result ≡ plain.steps fsdi self (exchange_of line.now) }
        ensures rule { IfErr result (λ r. r ≡ plain.rule_of fsdi self (exchange_of line.now)) }
    {
        let rule = if self.is_open() {
            Rule::Reader
        } else {
            Rule::Activation
        };
        let Some(settled) = self.settle(&line.sent, fsdi) else {
            return Err(rule);
        };
        let ask = settled.ask();
        if !is_frame(&ask, &line.sent) {
            return Err(rule);
        }
        if !is_wait(&ask, &line.sent) {
            return Err(Rule::Wait);
        }
        match settled.hear(&line.heard) {
            Some(next) => Ok(next),
            None => Err(Rule::Card),
        }
    }
}

/// Whether the frame that was sent is the one that is asked.
fn is_frame(ask: &Option<Ask>, sent: &Shown) -> bool
    ensures { result ≡ plain.has_frame ask.now sent.now.wave sent.now.frame }
{
    match ask {
        None => false,
        Some(ask) => sent.wave == ask.wave && sent.frame.as_slice() == ask.frame.as_slice(),
    }
}

/// Whether the waiting number is the one that is asked.
fn is_wait(ask: &Option<Ask>, sent: &Shown) -> bool
    ensures { result ≡ plain.has_wait ask.now sent.now.wait }
{
    match ask {
        None => false,
        Some(ask) => sent.wait == ask.wait,
    }
}
