//! Two lanes over real fields: what no clause says is the whole text of a run, that memory can be had, and where a sink that
//! fails leaves the report.
ghost use Rattle.std.specs.Prelude.{◌≡◌, ◌≤◌, All, IfOk, length, vec_len};
ghost use Rattle.ep_lanes.specs.Lanes.{new_lanes};
ghost use Rattle.lane_run.specs.Reports.{IsFew, IsNewWork};
ghost use Rattle.ep_lanes.specs.Scripted.{held_of};

use acquirer_config::Config;
use ep_base::MemorySink;
use ep_lanes::{Lanes, Open};
use lane_run::{LaneJobs, report_lanes, works_of};
use lane_tests::{combination, field};
use scenario::{Job, Scripts};
use std::alloc::Global;
use std::test::Fail;

// Two transactions in lane 1 and one in lane 2, each with a card that has no directory. The turn list is 2, 2, 1.
pub(crate) const REPORT: &str = "\
1.1 start type=00 amount=1000
1.1 pre 1 aid=a0000000031010 kernel=3 allowed=1 status=0 zero=0 floor=0 cvm=0 ttq=-
1.1 message 15 Present card
2.1 start type=00 amount=1000
2.1 pre 1 aid=a0000000031010 kernel=3 allowed=1 status=0 zero=0 floor=0 cvm=0 ttq=-
2.1 message 15 Present card
2.1 card A 01020304
1.1 card A 01020304
2.1 apdu 00a404000e325041592e5359532e444446303100 6a82
2.1 candidates 0
2.1 outcome end
2.1 message 1c Insert, swipe or try another card
1.1 apdu 00a404000e325041592e5359532e444446303100 6a82
1.1 candidates 0
1.1 outcome end
1.1 message 1c Insert, swipe or try another card
2.1 end done
2.1 log 1 00a404000e325041592e5359532e444446303100
1.1 end done
1.1 log 1 00a404000e325041592e5359532e444446303100
1.2 start type=00 amount=1000
1.2 pre 1 aid=a0000000031010 kernel=3 allowed=1 status=0 zero=0 floor=0 cvm=0 ttq=-
1.2 message 15 Present card
1.2 card A 01020304
1.2 apdu 00a404000e325041592e5359532e444446303100 6a82
1.2 candidates 0
1.2 outcome end
1.2 message 1c Insert, swipe or try another card
1.2 end done
1.2 log 1 00a404000e325041592e5359532e444446303100
";

// The same with the trace line of each exchange.
pub(crate) const TRACED: &str = "\
1.1 start type=00 amount=1000
1.1 pre 1 aid=a0000000031010 kernel=3 allowed=1 status=0 zero=0 floor=0 cvm=0 ttq=-
1.1 message 15 Present card
2.1 start type=00 amount=1000
2.1 pre 1 aid=a0000000031010 kernel=3 allowed=1 status=0 zero=0 floor=0 cvm=0 ttq=-
2.1 message 15 Present card
x 2 S 52 0 =0400
x 2 A 500057cd 0 -
x 1 S 52 0 =0400
x 1 A 500057cd 0 -
x 2 B 0500083973 0 -
x 1 B 0500083973 0 -
x 2 S 52 0 =0400
x 1 S 52 0 =0400
x 2 N 9320 0 =0102030404
x 1 N 9320 0 =0102030404
x 2 A 937001020304048e25 0 =20fc70
x 1 A 937001020304048e25 0 =20fc70
x 2 A e0803173 0 =03284087e5
2.1 card A 01020304
x 1 A e0803173 0 =03284087e5
1.1 card A 01020304
x 2 A 0200a404000e325041592e5359532e444446303100e042 16 =026a82932f
2.1 apdu 00a404000e325041592e5359532e444446303100 6a82
2.1 candidates 0
2.1 outcome end
2.1 message 1c Insert, swipe or try another card
x 1 A 0200a404000e325041592e5359532e444446303100e042 16 =026a82932f
1.1 apdu 00a404000e325041592e5359532e444446303100 6a82
1.1 candidates 0
1.1 outcome end
1.1 message 1c Insert, swipe or try another card
x 2 A c2e0b4 16 =c2e0b4
2.1 end done
2.1 log 1 00a404000e325041592e5359532e444446303100
x 1 A c2e0b4 16 =c2e0b4
1.1 end done
1.1 log 1 00a404000e325041592e5359532e444446303100
1.2 start type=00 amount=1000
1.2 pre 1 aid=a0000000031010 kernel=3 allowed=1 status=0 zero=0 floor=0 cvm=0 ttq=-
1.2 message 15 Present card
x 1 S 52 0 =0400
x 1 A 500057cd 0 -
x 1 B 0500083973 0 -
x 1 S 52 0 =0400
x 1 N 9320 0 =0102030404
x 1 A 937001020304048e25 0 =20fc70
x 1 A e0803173 0 =03284087e5
1.2 card A 01020304
x 1 A 0200a404000e325041592e5359532e444446303100e042 16 =026a82932f
1.2 apdu 00a404000e325041592e5359532e444446303100 6a82
1.2 candidates 0
1.2 outcome end
1.2 message 1c Insert, swipe or try another card
x 1 A c2e0b4 16 =c2e0b4
1.2 end done
1.2 log 1 00a404000e325041592e5359532e444446303100
";

// A purchase over that field, with no kernel.
fn job(alloc: Global, config: &Config) -> Result<Job, Fail>
    ensures { IfOk result (λ job. IsFew config.now job) }
{
    let _list = config.list();
    Ok(Job {
        txn_type: 0,
        amount: 1000,
        field: field(alloc)?,
        scripts: Scripts::of(Vec::new(alloc)),
    })
}

// Two of them in lane 1, and one in lane 2.
pub(crate) fn works(alloc: Global, config: &Config) -> Result<Vec<LaneJobs>, Fail>
    ensures new { IfOk result (λ v. All (IsNewWork config.now) v.items) }
    ensures two { IfOk result (λ v. length v.items ≡ 2) }
{
    let mut first = Vec::new(alloc);
    first.push(job(alloc, config)?)?;
    first.push(job(alloc, config)?)?;
    let mut second = Vec::new(alloc);
    second.push(job(alloc, config)?)?;
    let mut lanes = Vec::new(alloc);
    lanes.push(first)?;
    lanes.push(second)?;
    let Ok(works) = works_of(alloc, lanes) else {
        return Err("memory".into());
    };
    Ok(works)
}

// Whether the report was written whole, and what was written, where the sink fails at these calls.
fn report(alloc: Global, traced: bool, fails: Vec<u32>) -> Result<(bool, MemorySink), Fail> {
    let mut list = Vec::new(alloc);
    list.push(combination())?;
    let config = Config::of_list(2, list);
    let mut works = works(alloc, &config)?;
    let mut turns = Vec::new(alloc);
    turns.push(2u8)?;
    turns.push(2u8)?;
    turns.push(1u8)?;
    let Ok(mut lanes) = Lanes::<Scripts>::open(alloc, 2, turns) else {
        return Err("memory".into());
    };
    let Ok(mut sink) = MemorySink::new(alloc, 10_000, fails) else {
        return Err("memory".into());
    };
    let whole = report_lanes(
        &mut lanes, &config, 8, traced, &mut works, &mut sink, &mut Open,
    );
    Ok((whole.is_ok(), sink))
}

#[test]
fn lanes_are_reported_as_they_run(rt: HostRuntime) -> Result<(), Fail> {
    let (whole, sink) = report(rt.alloc(), false, Vec::new(rt.alloc()))?;
    assert!(rt; whole);
    assert!(rt; sink.written() == REPORT.as_bytes());
    Ok(())
}

#[test]
fn each_exchange_is_traced(rt: HostRuntime) -> Result<(), Fail> {
    let (whole, sink) = report(rt.alloc(), true, Vec::new(rt.alloc()))?;
    assert!(rt; whole);
    assert!(rt; sink.written() == TRACED.as_bytes());
    Ok(())
}

#[test]
fn a_sink_fails_at_a_line(rt: HostRuntime) -> Result<(), Fail> {
    for (call, lines) in [(1u32, 0), (4, 3), (8, 7), (14, 13)] {
        let fails = vec![in rt.alloc(); call]?;
        let (whole, sink) = report(rt.alloc(), false, fails)?;
        assert!(rt; !whole);
        let written = sink.written();
        assert!(rt; written.iter().filter(|byte| **byte == 10).count() == lines);
        assert!(rt; REPORT.as_bytes().starts_with(written));
    }
    Ok(())
}
