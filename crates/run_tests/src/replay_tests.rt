//! Two lanes against the trace of their own run, whole and altered: what no clause says is the text of a replay, the words
//! of a mismatch, and that memory can be had.
ghost use Rattle.std.specs.Prelude.{◌≡◌, ◌≤◌, All, IfOk, length};

use crate::lane_run_tests::{REPORT, TRACED, works};
use acquirer_config::Config;
use ep_base::{Line, MemorySink};
use ep_lanes::Lanes;
use lane_run::{ReplayEnd, replay_lanes};
use lane_tests::combination;
use scenario::Scripts;
use std::alloc::AllocGlobal;
use std::process::Abort;
use std::test::Fail;
use trace_io::{Replay, TraceLine, mismatch_text, read_trace_line};

// The exchanges of a text's lines.
fn trace(rt: &(impl Abort + AllocGlobal), text: &str) -> Result<Vec<TraceLine>, Fail> {
    let mut lines = Vec::new(rt.alloc());
    for line in text.lines() {
        lines.push(read_trace_line(line).ok_or("not a trace line")?)?;
    }
    Ok(lines)
}

// The trace of the run.
fn exchanges(rt: &(impl Abort + AllocGlobal)) -> Result<String, Fail> {
    let mut text = String::new(rt.alloc());
    for line in TRACED.lines() {
        if line.starts_with("x ") {
            text.push_str(line)?;
            text.push_str("\n")?;
        }
    }
    Ok(text)
}

// Its report without the log.
fn events(rt: &(impl Abort + AllocGlobal)) -> Result<String, Fail> {
    let mut text = String::new(rt.alloc());
    for line in REPORT.lines() {
        if !line.contains(" log ") {
            text.push_str(line)?;
            text.push_str("\n")?;
        }
    }
    Ok(text)
}

// What is said of how a replay ended.
fn said_of(end: &Result<(), ReplayEnd>) -> Line {
    let mut said = Line::new();
    match end {
        Ok(()) => {}
        Err(ReplayEnd::Mismatch(mismatch)) => mismatch_text(mismatch, &mut said),
        Err(ReplayEnd::SinkFailed) => said.push_str("the sink has failed"),
    }
    said
}

// What is said of how the lanes' replay by this trace ended, and what was written, where the sink fails at these calls.
fn replay(
    rt: &(impl Abort + AllocGlobal),
    lines: &str,
    fails: Vec<u32>,
) -> Result<(Line, MemorySink), Fail> {
    let alloc = rt.alloc();
    let mut list = Vec::new(alloc);
    list.push(combination())?;
    let config = Config::of_list(2, list);
    let mut works = works(alloc, &config)?;
    let mut turns = Vec::new(alloc);
    turns.push(2u8)?;
    turns.push(2u8)?;
    turns.push(1u8)?;
    let Ok(mut lanes) = Lanes::<Scripts>::open(alloc, 2, turns) else {
        return Err("memory".into());
    };
    let Ok(mut sink) = MemorySink::new(alloc, 10_000, fails) else {
        return Err("memory".into());
    };
    let mut replay = Replay::of(trace(rt, lines)?);
    let end = replay_lanes(&mut lanes, &config, 8, &mut works, &mut replay, &mut sink);
    Ok((said_of(&end), sink))
}

// A replay by this trace ends so, and writes so many lines of the events.
fn check(
    rt: &(impl Abort + AllocGlobal),
    lines: &str,
    fails: Vec<u32>,
    end: &str,
    many: usize,
) -> Result<(), Fail> {
    let events = events(rt)?;
    let (said, sink) = replay(rt, lines, fails)?;
    assert!(rt; said.as_str() == end);
    let written = sink.written();
    assert!(rt;
        written.iter().filter(|byte| **byte == 10).count() == many,
        "{end}"
    );
    assert!(rt; events.as_bytes().starts_with(written), "{end}");
    Ok(())
}

#[test]
fn a_run_is_replayed_by_its_trace(rt: HostRuntime) -> Result<(), Fail> {
    let whole = exchanges(&rt)?;
    check(&rt, whole.as_str(), Vec::new(rt.alloc()), "", 27)?;
    let failing = vec![in rt.alloc(); 4u32]?;
    check(&rt, whole.as_str(), failing, "the sink has failed", 3)
}

#[test]
fn altered_traces(rt: HostRuntime) -> Result<(), Fail> {
    let whole = exchanges(&rt)?;
    let (first, others) = whole
        .split_once("e042 16")
        .expect(&rt, "the line of a SELECT");
    let other = format!(in rt.alloc(); "{first}e043 16{others}")?;
    let end =
        "ep_program: mismatch at 15: wanted 2 A 0200a404000e325041592e5359532e444446303100e043 16, got 2 A 0200a404000e325041592e5359532e444446303100e042 16";
    check(&rt, other.as_str(), Vec::new(rt.alloc()), end, 8)?;
    let short = whole.strip_suffix("x 1 A c2e0b4 16 =c2e0b4\n");
    let short = short.expect(&rt, "the line of the last closing");
    let end = "ep_program: mismatch at 27: wanted nothing, got 1 A c2e0b4 16";
    check(&rt, short, Vec::new(rt.alloc()), end, 26)?;
    let long = format!(in rt.alloc(); "{whole}x 1 S 52 0 -\n")?;
    let end = "ep_program: mismatch at 28: wanted 1 S 52 0, got nothing";
    check(&rt, long.as_str(), Vec::new(rt.alloc()), end, 27)
}
