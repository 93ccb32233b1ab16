//! What was heard of an open command since the toggle.
ghost use Rattle.std.specs.Prelude.{◌≡◌, ◌≤◌, ◌<◌, ◌+◌, suc, nat_lt, nat_le, if◌then◌else◌, Some, None};
ghost use Rattle.ep_base.specs.Link.Block.{other as other_number, same as same_number};
ghost use Rattle.ep_base.specs.Link.LinkFrames.{block_ask, heard_block};
ghost use Rattle.ep_base.specs.declared.limits.TheConstants.{WAITS};
ghost use Rattle.block_pcb.specs.Meaning.{block_of, InRange};
ghost use Rattle.rf_frame.specs.Meaning.{heard_of};
ghost use Rattle.trace_check.specs.Meaning.{said_of, SaysInRange};
ghost use Rattle.trace_check.specs.Watch as plain;

use crate::latest::Latest;
use crate::link::{Link, ReadBlock};
use crate::watch::Watch;
use block_pcb::Block;
use ep_base::{RESPONSE, WAITS};
use rf_frame::{Ask, Heard};
use std::marker::Model;

/// An open command.
#[derive(Drop)]
pub(crate) struct Tally {
    link: Link,
    number: bool,
    latest: Latest,
    bad: u8,
    wtx: u8,
}

impl Model for Tally {
    ghost use Rattle.std.specs.Prelude.{◌<◌, ◌≤◌};
    ghost use Rattle.ep_base.specs.declared.limits.TheConstants.{WAITS};
    ghost use Rattle.trace_check.specs.Held.{Tally};
    ghost use Rattle.trace_check.specs.Latests.{WaitsFit};

    ghost Value = { Tally };

    ghost view = { λ t. record { set = t.link; number = t.number; latest = t.latest; bad = t.bad; wtx = t.wtx } };

    ghost invariant = { λ t. (t.bad < 3) × (t.wtx ≤ WAITS) × WaitsFit t.latest };
}

/// Whether two block numbers are the same.
pub(crate) fn same(a: bool, b: bool) -> bool
    ensures { result ≡ same_number a b }
{
    if a { b } else { !b }
}

/// The other block number.
pub(crate) fn other(number: bool) -> bool
    ensures { result ≡ other_number number }
{
    !number
}

impl Tally {
    /// A command of which nothing was heard since the toggle.
    pub(crate) fn open(link: Link, number: bool) -> Tally
        ensures { result ≡ plain.fresh link number }
    {
        Tally {
            link,
            number,
            latest: Latest::Plain,
            bad: 0,
            wtx: 0,
        }
    }

    /// The block number.
    pub(crate) fn number(&self) -> bool
        ensures { result ≡ self.now.number }
    {
        self.number
    }

    /// Whether the latest hearing was bad.
    pub(crate) fn is_lost(&self) -> bool
        ensures { result ≡ plain.is_lost self.now.latest }
    {
        matches!(self.latest, Latest::Lost)
    }

    /// What is asked, where the command's own block is `own` and `lost` asks for the last answer again.
    pub(crate) fn ask(&self, own: &Block<'_>, lost: &Block<'_>) -> Ask
        requires own { InRange own.now }
        requires lost { InRange lost.now }
        ensures { result ≡ block_ask self.now.set.kind self.now.set.fwi (plain.block_by self.now.latest (block_of own.now) (block_of lost.now)) }
    {
        match self.latest {
            Latest::Plain => self.link.ask(own),
            Latest::Lost => self.link.ask(lost),
            Latest::Waits(wtxm) => self.link.ask(&Block::Wtx { power: 0, wtxm }),
        }
    }

    /// What a hearing says.
    pub(crate) fn read<'h>(&self, heard: &'h Heard) -> ReadBlock<'h>
        ensures said { said_of result ≡ heard_block self.now.set.kind self.now.set.frames.reader (heard_of heard.now) }
        ensures range { SaysInRange result }
    {
        self.link.read(heard)
    }

    /// One more bad hearing, unless it is the third.
    pub(crate) fn lose(self) -> Option<Tally>
        ensures { result ≡ (if nat_lt (suc self.bad) 3 then Some (plain.lost self) else None) }
    {
        if self.bad + 1 >= 3 {
            return None;
        }
        Some(Tally {
            link: self.link,
            number: self.number,
            latest: Latest::Lost,
            bad: self.bad + 1,
            wtx: self.wtx,
        })
    }

    /// One more S(WTX), unless there are too many.
    pub(crate) fn wait(self, wtxm: u8) -> Option<Tally>
        requires { (1 ≤ wtxm) × (wtxm ≤ 59) }
        ensures { result ≡ (if nat_le (suc self.wtx) WAITS then Some (plain.waits wtxm self) else None) }
    {
        if usize::from(self.wtx) >= WAITS {
            return None;
        }
        Some(Tally {
            link: self.link,
            number: self.number,
            latest: Latest::Waits(wtxm),
            bad: self.bad,
            wtx: self.wtx + 1,
        })
    }

    /// The same block is sent again.
    pub(crate) fn again(self) -> Tally
        ensures { result ≡ plain.again self }
    {
        let mut tally = self;
        tally.latest = Latest::Plain;
        tally
    }

    /// The link, after the toggle.
    pub(crate) fn toggle(self) -> (Link, bool)
        ensures { (result.0 ≡ self.set) × (result.1 ≡ other_number self.number) }
    {
        (self.link, other(self.number))
    }

    /// Whether a part of a response fits after so many bytes.
    fn fits(&self, got: u16, chained: bool, len: usize) -> bool
        ensures { result ≡ plain.fits self.now.set.frames.reader got chained len }
    {
        if self.link.frame() < 3 || len > self.link.frame() - 3 {
            return false;
        }
        let whole = usize::from(got) + len;
        if chained {
            len > 0 && whole <= RESPONSE
        } else {
            whole >= 2 && whole <= RESPONSE
        }
    }

    /// The lane after a part of the response, after so many bytes.
    pub(crate) fn receive(self, got: u16, chained: bool, len: usize) -> Option<Watch>
        ensures { result ≡ plain.takes_part self got chained len }
    {
        if !self.fits(got, chained, len) {
            return None;
        }
        let (link, number) = self.toggle();
        if chained {
            let whole = usize::from(got) + len;
            Some(Watch::Receiving(Tally::open(link, number), whole as u16))
        } else {
            Some(Watch::Resting(link, number))
        }
    }
}
