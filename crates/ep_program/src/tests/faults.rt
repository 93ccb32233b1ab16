//! Faults of source and sink, each pull and each push in turn, and the longest input.

use super::cases::{Case, case_of, spelled};
use super::purchase::PURCHASE;
use super::turns::{ONE_LANE, TWO_LANES};
use super::words::LOAD;
use super::{End, check, run};
use std::test::Fail;

const READ_FAULT: End = End {
    number: 1,
    said: "ep_program: read fault",
    text: "",
};

/// A text filled with newlines to so many bytes.
fn filled(rt: &HostRuntime, text: &str, length: usize) -> Result<Vec<u8>, Fail> {
    let mut bytes = text.as_bytes().to_vec(rt.alloc())?;
    let newlines = vec![in rt.alloc(); 10u8; length.saturating_sub(text.len())]?;
    bytes.extend_from_slice(&newlines)?;
    Ok(bytes)
}

/// Each of the first `pulls` pulls of the input fails in turn; the one after them would be one after the input's end.
fn each_pull(
    rt: &HostRuntime,
    words: &str,
    input: &[u8],
    pulls: u32,
    text: &str,
) -> Result<(), Fail> {
    for pull in 1..=pulls {
        let left = run(rt, words, input, &[pull], &[])?;
        let name = format!(in rt.alloc(); "{words}, pull {pull}")?;
        check(rt, name.as_str(), &left, &READ_FAULT)?;
    }
    let left = run(rt, words, input, &[pulls.saturating_add(1)], &[])?;
    let end = End {
        number: 0,
        said: "",
        text,
    };
    check(rt, "no pull", &left, &end)
}

/// Each push of a line fails in turn, and leaves the lines before it; a push after the last one would be one too many.
fn each_push(rt: &HostRuntime, words: &str, input: &[u8], text: &str) -> Result<(), Fail> {
    let mut push = 1u32;
    let mut before = String::new(rt.alloc());
    for line in text.lines() {
        let left = run(rt, words, input, &[], &[push])?;
        let name = format!(in rt.alloc(); "{words}, push {push}")?;
        let end = End {
            number: 2,
            said: "ep_program: write fault",
            text: before.as_str(),
        };
        check(rt, name.as_str(), &left, &end)?;
        before.push_str(line)?;
        before.push_str("\n")?;
        push = push.saturating_add(1);
    }
    let left = run(rt, words, input, &[], &[push])?;
    let end = End {
        number: 0,
        said: "",
        text,
    };
    check(rt, "no push", &left, &end)
}

/// The input stands in one piece, and then, filled with newlines, in three.
fn each_fault(rt: &HostRuntime, case: &Case<'_>) -> Result<(), Fail> {
    let input = case.document.as_bytes();
    let text = case.text.as_str();
    let longer = filled(rt, case.document.as_str(), 40_000)?;
    each_push(rt, case.words, input, text)?;
    each_pull(rt, case.words, input, 2, text)?;
    each_pull(rt, case.words, &longer, 4, text)
}

/// The same for each run of a text.
fn each_fault_of_runs(rt: &HostRuntime, sections: &str) -> Result<(), Fail> {
    for section in sections.split("%% ") {
        if let Some(section) = section.strip_prefix("= ") {
            each_fault(rt, &case_of(rt, sections, section)?)?;
        }
    }
    Ok(())
}

#[test]
fn faults_of_one_lane(rt: HostRuntime) -> Result<(), Fail> {
    each_fault_of_runs(&rt, ONE_LANE)?;
    each_push(&rt, "/load/1/1", b"a=", LOAD)
}

#[test]
fn faults_of_two_lanes(rt: HostRuntime) -> Result<(), Fail> {
    each_fault_of_runs(&rt, TWO_LANES)
}

/// The purchase, filled with newlines to so many bytes, leaves this.
fn check_long(rt: &HostRuntime, length: usize, end: &End<'_>) -> Result<(), Fail> {
    let text = spelled(rt, "", PURCHASE)?;
    let document = filled(rt, text.as_str(), length)?;
    let left = run(rt, "/run", &document, &[], &[])?;
    check(rt, "a long input", &left, end)
}

#[test]
fn the_longest_input_and_one_byte_more(rt: HostRuntime) -> Result<(), Fail> {
    let report = spelled(&rt, "", "<report>")?;
    let end = End {
        number: 0,
        said: "",
        text: report.as_str(),
    };
    check_long(&rt, 1_048_576, &end)?;
    let end = End {
        number: 5,
        said: "ep_program: input longer than 1048576 bytes",
        text: "",
    };
    check_long(&rt, 1_048_577, &end)
}
