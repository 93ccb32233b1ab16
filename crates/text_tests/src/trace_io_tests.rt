//! Trace lines both ways, and replays of traces.

use ep_base::{FRAME, FrameBuf, Line, Wave};
use rf_frame::{Heard, Medium, RfFailed};
use std::alloc::{AllocGlobal, Global};
use std::process::Abort;
use std::test::Fail;
use trace_io::{Mismatch, Replay, Shown, TraceLine, read_trace_line, trace_line};

/// The trace of a card of Type A that has no directory.
const TRACE: &str = "\
x 1 S 52 0 =0400
x 1 A 500057cd 0 -
x 1 B 0500083973 0 -
x 1 S 52 0 =0400
x 1 N 9320 0 =0102030404
x 1 A 937001020304048e25 0 =20fc70
x 1 A e0803173 0 =03284087e5
x 1 A 0200a404000e325041592e5359532e444446303100e042 16 =026a82932f
x 1 A c2e0b4 16 =c2e0b4";

/// The first lines of a card of Type B, and lines with other signs and numbers.
const OTHERS: &str = "\
x 1 S 52 0 -
x 1 B 0500083973 0 =501122334400000000008140dc88
x 1 B 1d1122334400080100db35 0 =0078f0
x 8 N 9320 0 *
x 2 A b267c7 16 ?
x 3 A f20187a8 16384 -";

/// Texts that are no trace lines, each before a `|`. The first one is empty.
const REFUSED: &str =
    "|x|x 1 S 52 0|x 1 S 52 0 |X 1 S 52 0 -|x 0 S 52 0 -|x 9 S 52 0 -|x 01 S 52 0 -|x +1 S 52 0 -\
|x 1 s 52 0 -|x 1 S 5 0 -|x 1 S 5g 0 -|x 1 S  0 -|x 1 S 52 00 -|x 1 S 52 16385 -|x 1 S 52 -1 -|x 1  S 52 0 -|x 1 S 52 0 - \
|x 1 S 52 0 -\n|x 1 S 52 0 =|x 1 S 52 0 =040|x 1 S 52 0 0400";

fn framed(bytes: &[u8]) -> Result<FrameBuf, Fail> {
    let mut frame = FrameBuf::new();
    frame.try_extend_from_slice(bytes)?;
    Ok(frame)
}

fn trace(alloc: Global, text: &str) -> Result<Vec<TraceLine>, Fail> {
    let mut lines = Vec::new(alloc);
    for line in text.lines() {
        lines.push(read_trace_line(line).ok_or("not a trace line")?)?;
    }
    Ok(lines)
}

#[test]
fn lines_both_ways(rt: HostRuntime) -> Result<(), Fail> {
    for text in TRACE.lines().chain(OTHERS.lines()) {
        let line = read_trace_line(text).ok_or("not a trace line")?;
        let mut out = Line::new();
        trace_line(&line, &mut out);
        assert!(rt; out.as_str().strip_suffix("\n") == Some(text));
    }
    Ok(())
}

#[test]
fn what_lines_say(rt: HostRuntime) -> Result<(), Fail> {
    let line = read_trace_line("x 1 N 9320 0 =0102030404").ok_or("not a trace line")?;
    let want = TraceLine {
        sent: Shown {
            lane: 1,
            wave: Wave::ABare,
            frame: framed(b"\x93\x20")?,
            wait: 0,
        },
        heard: Heard::Frame {
            wave: Wave::ABare,
            bytes: framed(b"\x01\x02\x03\x04\x04")?,
        },
    };
    assert!(rt; line == want);
    let wake = read_trace_line("x 1 S 52 0 =0400").ok_or("not a trace line")?;
    let atqa = Heard::Frame {
        wave: Wave::ABare,
        bytes: framed(b"\x04\x00")?,
    };
    assert!(rt; wake.heard == atqa);
    let lower = read_trace_line("x 1 A c2e0b4 16 =c2e0b4").ok_or("not a trace line")?;
    let upper = read_trace_line("x 1 A C2E0b4 16 =c2E0B4").ok_or("not a trace line")?;
    assert!(rt; lower == upper);
    Ok(())
}

#[test]
fn texts_that_are_no_lines(rt: HostRuntime) {
    assert!(rt; REFUSED.split('|').count() == 22);
    for text in REFUSED.split('|') {
        assert!(rt; read_trace_line(text).is_none(), "{text:?}");
    }
}

#[test]
fn the_longest_line(rt: HostRuntime) -> Result<(), Fail> {
    let line = TraceLine {
        sent: Shown {
            lane: 255,
            wave: Wave::A,
            frame: framed(&[0xff; FRAME])?,
            wait: u32::MAX,
        },
        heard: Heard::Frame {
            wave: Wave::A,
            bytes: framed(&[0xff; FRAME])?,
        },
    };
    let mut out = Line::new();
    trace_line(&line, &mut out);
    assert!(rt; out.len() == 1046);
    Ok(())
}

#[test]
fn a_run_that_is_its_trace(rt: HostRuntime) -> Result<(), Fail> {
    let mut replay = Replay::of(trace(rt.alloc(), TRACE)?);
    for line in trace(rt.alloc(), TRACE)?.iter() {
        assert!(rt; replay.reset() == Ok(()));
        let heard = replay.send(line.sent.wave, &line.sent.frame, line.sent.wait);
        assert!(rt; heard == Ok(line.heard.copy()));
    }
    assert!(rt; replay.finish() == Ok(()));
    assert!(rt; replay.mismatch().is_none());
    Ok(())
}

#[test]
fn a_run_with_another_frame(rt: HostRuntime) -> Result<(), Fail> {
    let mut replay = Replay::of(trace(rt.alloc(), "x 1 S 52 0 =0400\nx 2 A 500057cd 0 -")?);
    let wake = framed(b"\x52")?;
    let halt = framed(b"\x50\x00\x57\xce")?;
    assert!(rt; replay.send(Wave::AShort, &wake, 0).is_ok());
    replay.at(2);
    assert!(rt; replay.send(Wave::A, &halt, 0) == Err(RfFailed));
    let right = framed(b"\x50\x00\x57\xcd")?;
    assert!(rt; replay.send(Wave::A, &right, 0) == Err(RfFailed));
    assert!(rt; replay.finish() == Err(RfFailed));
    let mismatch = replay.mismatch().ok_or("no mismatch")?;
    let wanted = Shown {
        lane: 2,
        wave: Wave::A,
        frame: right,
        wait: 0,
    };
    let got = Shown {
        lane: 2,
        wave: Wave::A,
        frame: halt,
        wait: 0,
    };
    assert!(rt; mismatch.place == 2);
    assert!(rt; mismatch.wanted == Some(wanted));
    assert!(rt; mismatch.got == Some(got));
    Ok(())
}

/// A run whose first exchange is this one differs from a trace whose first one is the waking of all cards by lane 1.
fn check_differs(
    rt: &(impl Abort + AllocGlobal),
    lane: u8,
    wave: Wave,
    wait: u32,
) -> Result<(), Fail> {
    let mut replay = Replay::of(trace(rt.alloc(), "x 1 S 52 0 -")?);
    replay.at(lane);
    assert!(rt; replay.send(wave, &framed(b"\x52")?, wait) == Err(RfFailed));
    let mismatch = replay.mismatch().ok_or("no mismatch")?;
    assert!(rt; mismatch.place == 1);
    Ok(())
}

#[test]
fn runs_that_differ_otherwise(rt: HostRuntime) -> Result<(), Fail> {
    check_differs(&rt, 2, Wave::AShort, 0)?;
    check_differs(&rt, 1, Wave::ABare, 0)?;
    check_differs(&rt, 1, Wave::AShort, 16)
}

#[test]
fn a_trace_and_a_run_of_other_lengths(rt: HostRuntime) -> Result<(), Fail> {
    let wake = framed(b"\x52")?;
    let shown = Shown {
        lane: 1,
        wave: Wave::AShort,
        frame: framed(b"\x52")?,
        wait: 0,
    };
    let mut left = Replay::of(trace(rt.alloc(), "x 1 S 52 0 -")?);
    assert!(rt; left.finish() == Err(RfFailed));
    let first = Mismatch {
        place: 1,
        wanted: Some(shown.copy()),
        got: None,
    };
    assert!(rt; left.mismatch() == Some(&first));
    let mut over = Replay::of(Vec::new(rt.alloc()));
    assert!(rt; over.send(Wave::AShort, &wake, 0) == Err(RfFailed));
    let first = Mismatch {
        place: 1,
        wanted: None,
        got: Some(shown),
    };
    assert!(rt; over.mismatch() == Some(&first));
    Ok(())
}
