//! Takers of events through the trait's bound: one with a count of its own, and one that holds a reference.
ghost use Rattle.std.specs.Prelude.{◌≡◌};

use ep_base::Message;
use kernel_port::{End, Event, EventList, Events, EventsFailed};
use std::test::Fail;

// A taker of some events, which refuses those after them.
#[derive(Drop)]
struct Few {
    left: u32,
    faults: u64,
}

impl Events for Few {
    ghost use Rattle.std.specs.Prelude.{◌≡◌, ◌-◌, ℕ};

    ghost State = { ℕ };

    ghost state = { λ s. s.left };

    ghost steps = { record { take = λ left x. left - 1; cut = λ left x after. after ≡ left } };

    ghost faults = { λ s. s.faults };

    ghost anchor = { λ _. 0 };

    fn take(&mut self, _event: &Event) -> Result<(), EventsFailed> {
        if self.left == 0 {
            self.faults = self.faults.saturating_add(1);
            return Err(EventsFailed);
        }
        self.left -= 1;
        Ok(())
    }
}

// Each event adds one to a number that someone else has.
#[derive(Drop)]
struct Counted<'a> {
    count: &'a mut u32,
}

impl Events for Counted<'_> {
    ghost use Rattle.std.specs.Prelude.{◌+◌, ◌-◌, ◌^◌, ℕ, min, ⊤};

    ghost State = { ℕ };

    ghost state = { λ s. s.count.now };

    ghost steps = { record { take = λ count x. min (count + 1) (2 ^ 32 - 1); cut = λ count x after. ⊤ } };

    ghost faults = { λ _. 0 };

    ghost anchor = { λ s. s.count.ghost_name };

    fn take(&mut self, _event: &Event) -> Result<(), EventsFailed> {
        *self.count = self.count.saturating_add(1);
        Ok(())
    }
}

fn finish<E: Events>(events: &mut E) -> Result<(), EventsFailed>
    ensures { E.anchor events.new ≡ E.anchor events.old }
{
    events.take(&Event::Message(Message::PresentCard))?;
    events.take(&Event::End(End::NoCard))
}

#[test]
fn takers_of_events(rt: HostRuntime) -> Result<(), Fail> {
    let mut few = Few { left: 3, faults: 0 };
    assert!(rt; finish(&mut few) == Ok(()));
    assert!(rt; finish(&mut few) == Err(EventsFailed));
    let mut count = 0;
    let mut counted = Counted { count: &mut count };
    assert!(rt; finish(&mut counted) == Ok(()));
    assert!(rt; count == 2);
    Ok(())
}

#[test]
fn a_list_of_events(rt: HostRuntime) {
    let mut list = EventList::new();
    for _ in 0..24 {
        assert!(rt; !list.is_full());
        list.push(Event::Candidates(1));
    }
    assert!(rt; list.is_full());
}
