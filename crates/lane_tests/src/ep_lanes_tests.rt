//! Two lanes over two fields, a probe that gives silence, and a medium that fails.
ghost use Rattle.std.specs.Prelude.{◌≡◌, ◌≤◌, All, IfOk, length, vec_len};
ghost use Rattle.ep_lanes.specs.Lanes.{has_open, is_live, lanes_of};

use crate::cards::{combination, field};
use acquirer_config::Config;
use arrayvec::ArrayVec;
use ep_base::{FrameBuf, Wave};
use ep_lanes::{Ask, End, EventList, Heard, Lanes, Medium, Open, Probe, RfFailed, Turned};
use kernel_port::Scripts;
use pre_processing::{Prepared, prepare};
use std::alloc::Global;
use std::process::Abort;
use std::test::Fail;

// What the reader sends in a purchase with a card that has no directory, frame by frame.
const SENT: &str =
    "52 500057cd 0500083973 52 9320 937001020304048e25 e0803173 0200a404000e325041592e5359532e444446303100e042 c2e0b4";

fn purchase(alloc: Global) -> Result<Prepared, Fail> {
    let mut list = Vec::new(alloc);
    list.push(combination())?;
    Ok(prepare(&Config::of_list(2, list), 0, 1000))
}

// Two lanes with the turn list 1, 1, 2, 1, each with the purchase open.
fn two_lanes(rt: &(impl Abort + AllocGlobal)) -> Result<Lanes<Scripts>, Fail> {
    let turns = vec![in rt.alloc(); 1, 1, 2, 1]?;
    let Ok(mut lanes) = Lanes::open(rt.alloc(), 2, turns) else {
        return Err("memory".into());
    };
    let prepared = purchase(rt.alloc())?;
    for lane in [1, 2] {
        let mut events = EventList::new();
        let kernels = Scripts::of(Vec::new(rt.alloc()));
        assert!(rt; lanes.is_live(lane));
        assert!(rt; !lanes.has_open(lane));
        assert!(rt; lanes.begin(lane, &prepared, kernels, 8, &mut events) == Turned::Goes);
        assert!(rt; events.len() == 3);
    }
    assert!(rt; lanes.last().is_none());
    Ok(lanes)
}

// A run: the lane of each exchange, how many of them sent what the purchase sends then, how many events they added, and how
// each lane's transaction ended.
#[derive(Drop)]
struct Course {
    order: ArrayVec<u8, 40>,
    usual: u32,
    events: usize,
    ends: (Option<End>, Option<End>),
}

impl Course {
    // Takes what a turn made of a lane.
    fn take(&mut self, lane: u8, turned: Turned, events: &EventList) {
        let _full = self.order.try_push(lane);
        self.events = self.events.saturating_add(events.len());
        if let Turned::Ended(end) = turned {
            if lane == 1 {
                self.ends.0 = Some(end);
            } else {
                self.ends.1 = Some(end);
            }
        }
    }

    // Counts an exchange that sends what the purchase sends then.
    fn compare(&mut self, lane: u8, sent: &str) {
        let made = self.order.iter().filter(|taken| **taken == lane).count();
        if SENT.split(' ').nth(made) == Some(sent) {
            self.usual = self.usual.saturating_add(1);
        }
    }
}

// Runs both lanes to their ends, each over a field of its own.
fn run<P: Probe>(
    rt: &(impl Abort + AllocGlobal),
    lanes: &mut Lanes<Scripts>,
    probe: &mut P,
) -> Result<Course, Fail> {
    let mut first = field(rt.alloc())?;
    let mut second = field(rt.alloc())?;
    let mut course = Course {
        order: ArrayVec::new(),
        usual: 0,
        events: 0,
        ends: (None, None),
    };
    for _ in 0..40 {
        let Some(lane) = lanes.next() else {
            break;
        };
        assert!(rt; lanes.has_open(lane));
        let mut events = EventList::new();
        let turned = if lane == 1 {
            lanes.turn(lane, &mut first, probe, &mut events).ok()
        } else {
            lanes.turn(lane, &mut second, probe, &mut events).ok()
        };
        let turned = turned.ok_or("a fault")?;
        let made = lanes.last().ok_or("no exchange")?;
        assert!(rt; made.lane == lane);
        let sent = hex::encode(rt.alloc(), made.ask.frame.as_slice())?;
        course.compare(lane, sent.as_str());
        course.take(lane, turned, &events);
        if turned != Turned::Goes {
            assert!(rt; !lanes.has_open(lane));
            lanes.finish(lane);
        }
    }
    Ok(course)
}

#[test]
fn two_lanes_take_turns(rt: HostRuntime) -> Result<(), Fail> {
    let mut lanes = two_lanes(&rt)?;
    let course = run(&rt, &mut lanes, &mut Open)?;
    assert!(rt;
        course.order.as_slice() == [1, 1, 2, 1, 1, 2, 1, 2, 1, 2, 1, 2, 1, 2, 1, 2, 2, 2].as_slice()
    );
    assert!(rt; (course.usual, course.events) == (18, 12));
    assert!(rt; course.ends == (Some(End::Done), Some(End::Done)));
    assert!(rt; lanes.next() == None);
    Ok(())
}

// A probe that counts its hearings, and gives silence at three of them.
#[derive(Drop)]
struct Deaf {
    hearings: u32,
}

impl Probe for Deaf {
    ghost use Rattle.ep_claim.specs.Lanes.Probing.{probe_untold};

    ghost State = { Unit {0} };

    ghost state = { λ _. tt };

    ghost steps = { probe_untold };

    fn hear(&mut self, _lane: u8, _ask: &Ask, heard: &Heard) -> Heard {
        self.hearings = self.hearings.saturating_add(1);
        match self.hearings {
            13 | 15 | 17 => Heard::Silence,
            _ => heard.copy(),
        }
    }
}

#[test]
fn a_probe_breaks_a_link(rt: HostRuntime) -> Result<(), Fail> {
    let mut lanes = two_lanes(&rt)?;
    let mut deaf = Deaf { hearings: 0 };
    let course = run(&rt, &mut lanes, &mut deaf)?;
    assert!(rt; deaf.hearings == 19);
    assert!(rt; (course.order.len(), course.events) == (19, 8));
    assert!(rt; course.ends == (Some(End::Link), Some(End::Done)));
    Ok(())
}

// A medium that fails at every call.
#[derive(Drop)]
struct Broken {
    faults: u64,
}

impl Medium for Broken {
    ghost use Rattle.ep_base.specs.Air.Medium.{untold};

    ghost State = { Unit {0} };

    ghost state = { λ _. tt };

    ghost steps = { untold };

    ghost faults = { λ m. m.faults };

    fn reset(&mut self) -> Result<(), RfFailed> {
        self.faults = self.faults.saturating_add(1);
        Err(RfFailed)
    }

    fn send(&mut self, _wave: Wave, _frame: &FrameBuf, _wait: u32) -> Result<Heard, RfFailed> {
        self.faults = self.faults.saturating_add(1);
        Err(RfFailed)
    }
}

#[test]
fn a_medium_fails(rt: HostRuntime) -> Result<(), Fail> {
    let mut lanes = two_lanes(&rt)?;
    let mut field = field(rt.alloc())?;
    let mut events = EventList::new();
    let mut broken = Broken { faults: 0 };
    assert!(rt; lanes.next() == Some(1));
    assert!(rt; lanes.has_open(1));
    assert!(rt; lanes.turn(1, &mut broken, &mut Open, &mut events) == Err(RfFailed));
    assert!(rt; lanes.last().is_none());
    assert!(rt; lanes.next() == Some(2));
    assert!(rt; lanes.has_open(2));
    assert!(rt; events.is_empty());
    assert!(rt; lanes.turn(2, &mut field, &mut Open, &mut events) == Ok(Turned::Goes));
    assert!(rt; lanes.next() == Some(2));
    Ok(())
}
