//! Traces that are allowed, and the first bad lines of others.
ghost use Rattle.std.specs.Prelude.{◌≡◌, true, All, map};
ghost use Rattle.trace_io.specs.Meaning.{traced_of};
ghost use Rattle.trace_check.specs.Verdicts.{HasLane};

use std::alloc::Global;
use std::test::Fail;
use trace_check::{Rule, TraceLine, Verdict, check_trace};
use trace_io::read_trace_line;

/// The trace of a transaction with one card, whose directory can't be read.
const LINES: &str = "x 1 S 52 0 =0400
x 1 A 500057cd 0 -
x 1 B 0500083973 0 -
x 1 S 52 0 =0400
x 1 N 9320 0 =0102030404
x 1 A 937001020304048e25 0 =20fc70
x 1 A e0803173 0 =03284087e5
x 1 A 0200a404000e325041592e5359532e444446303100e042 16 =026a82932f
x 1 A c2e0b4 16 =c2e0b4";

/// A place, the line that stands there instead, and what the check says then. No line has the place 0.
const ROWS: &str = "0 - > ok
9 x 1 S 52 0 - > 9 reader
8 x 1 A 0200a404000e325041592e5359532e444446303100e042 15 =026a82932f > 8 wait
7 x 1 A e0803173 0 - > 8 activation
8 x 1 A 0200a404000e325041592e5359532e444446303100e042 16 =c2e0b4 > 8 card
1 x 1 S 52 0 - > 2 activation
3 x 1 B 0500083973 1 - > 3 wait
9 x 1 A c2e0b4 16 - > ok
8 x 1 A 0200a404000e325041592e5359532e444446303100e042 16 - > 9 reader
9 x 1 A c2e0b4 0 - > 9 wait";

/// The lines of a trace, with another one at this place.
fn read(alloc: Global, text: &str, place: usize, other: &str) -> Result<Vec<TraceLine>, Fail> {
    let mut lines = Vec::new(alloc);
    for (index, old) in text.lines().enumerate() {
        let new = if index + 1 == place { other } else { old };
        let Some(line) = read_trace_line(new) else {
            return Err("no line".into());
        };
        lines.push(line)?;
    }
    Ok(lines)
}

/// Whether a line is of a lane from 1 to 8.
fn has_lane(line: &TraceLine) -> bool
    ensures { result ≡ true → HasLane (traced_of line.now) }
{
    let lane = line.sent.lane;
    1 <= lane && lane <= 8
}

/// Whether all lines are of lanes from 1 to 8.
fn have_lanes(lines: &[TraceLine]) -> bool
    ensures { result ≡ true → All HasLane (map traced_of lines.now) }
{
    for line in lines {
        if !has_lane(line) {
            return false;
        }
    }
    true
}

/// What the check says of lines, which are of lanes from 1 to 8.
fn check(lines: &[TraceLine]) -> Result<Result<(), Verdict>, Fail> {
    if lines.len() >= 1_000 || !have_lanes(lines) {
        return Err("no trace".into());
    }
    Ok(check_trace(lines, 8))
}

/// The word of a rule.
fn word(rule: Rule) -> &'static str {
    match rule {
        Rule::Activation => "activation",
        Rule::Reader => "reader",
        Rule::Card => "card",
        Rule::Wait => "wait",
    }
}

/// Whether this is said of a lane's lines.
fn is_said(said: &Result<(), Verdict>, lane: u8, wanted: &str) -> bool {
    match said {
        Ok(()) => wanted == "ok",
        Err(bad) => match wanted.split_once(' ') {
            None => false,
            Some((place, rule)) => {
                place.parse::<u32>() == Ok(bad.place) && bad.lane == lane && rule == word(bad.rule)
            }
        },
    }
}

#[test]
fn single_lines_that_differ(rt: HostRuntime) -> Result<(), Fail> {
    for row in ROWS.lines() {
        let Some((place, rest)) = row.split_once(' ') else {
            return Err("no place".into());
        };
        let Some((line, wanted)) = rest.split_once(" > ") else {
            return Err("no verdict".into());
        };
        let lines = read(rt.alloc(), LINES, place.parse::<usize>()?, line)?;
        let said = check(&lines)?;
        assert!(rt; is_said(&said, 1, wanted));
    }
    Ok(())
}

#[test]
fn no_line_is_allowed(rt: HostRuntime) -> Result<(), Fail> {
    let lines = read(rt.alloc(), "", 0, "")?;
    assert!(rt; check(&lines)? == Ok(()));
    Ok(())
}

/// Each line of a trace once for each of eight lanes, but that of the eighth lane's last line is another one.
fn in_eight_lanes(alloc: Global, text: &str, last: &str) -> Result<Vec<TraceLine>, Fail> {
    let mut lines = Vec::new(alloc);
    for old in text.lines() {
        for lane in 1u8..9 {
            let new = if lane == 8 && lines.len() == 71 {
                last
            } else {
                old
            };
            let Some(mut line) = read_trace_line(new) else {
                return Err("no line".into());
            };
            line.sent.lane = lane;
            lines.push(line)?;
        }
    }
    Ok(lines)
}

#[test]
fn eight_lanes_one_by_one(rt: HostRuntime) -> Result<(), Fail> {
    let lines = in_eight_lanes(rt.alloc(), LINES, "x 1 A c2e0b4 16 =c2e0b4")?;
    assert!(rt; check(&lines)? == Ok(()));
    let others = in_eight_lanes(rt.alloc(), LINES, "x 1 S 52 0 -")?;
    let said = check(&others)?;
    assert!(rt; is_said(&said, 8, "72 reader"));
    Ok(())
}
