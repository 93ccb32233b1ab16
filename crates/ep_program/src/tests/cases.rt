//! Runs as texts, each with what it leaves, and the walk over them.
//!
//! Such a text has sections, each of which begins with `%%` and a name. A section whose name begins with `=` is a run; the
//! others are parts of texts, as are those of `PARTS`. A run is the purchase's run with what its lines say:
//!
//! - `words /WORD/WORD`: these are the words
//! - `document TEXT`: this is the document
//! - `edit TEXT => TEXT`: this is changed in the document
//! - `status NUMBER`: this is the exit status
//! - `said TEXT`: this is said of it, on one line
//! - `text TEXT`: this is written
//! - `change TEXT => TEXT`: this is changed in what is written
//!
//! In a text `\n` is a newline, and `<NAME>` is the part with this name.

use super::purchase::{PARTS, PURCHASE};
use super::{
    End, cards, check, checks, inventories, kernels, limits, radio, refusals, replays, run,
    selection, turns,
};
use std::test::Fail;

/// A run of a document, and what it leaves.
#[derive(Drop)]
pub struct Case<'a> {
    /// What is tried.
    pub name: &'a str,
    pub words: &'a str,
    pub document: String,
    /// The exit status.
    pub number: u8,
    /// What is said.
    pub said: &'a str,
    /// What is written.
    pub text: String,
}

/// The part with this name among the sections of a text.
fn part_in<'a>(sections: &'a str, name: &str) -> Option<&'a str> {
    for section in sections.split("%% ") {
        if let Some(rest) = section.strip_prefix(name) {
            if let Some(part) = rest.strip_prefix('\n') {
                return Some(part);
            }
        }
    }
    None
}

/// A text as it is meant, with its newlines and parts: those of the sections first.
pub fn spelled(rt: &HostRuntime, sections: &str, text: &str) -> Result<String, Fail> {
    let mut all = String::new(rt.alloc());
    for piece in text.split('<') {
        match piece.split_once('>') {
            Some((name, rest)) => {
                let part = match part_in(sections, name) {
                    Some(part) => part,
                    None => part_in(PARTS, name).ok_or("no part has this name")?,
                };
                all.push_str(part)?;
                all.push_str(rest)?;
            }
            None => all.push_str(piece)?,
        }
    }
    Ok(all.replace(rt.alloc(), r"\n", "\n")?)
}

/// A text with what a line of a run changes in it. A part that stands nowhere in it is a mistake of the test.
fn changed(rt: &HostRuntime, sections: &str, text: &str, line: &str) -> Result<String, Fail> {
    let (part, other) = line.split_once(" =>").ok_or("no change")?;
    let part = spelled(rt, sections, part)?;
    let other = spelled(rt, sections, other.strip_prefix(' ').unwrap_or(""))?;
    if !text.contains(part.as_str()) {
        return Err(format!(in rt.alloc(); "not in the text: {line}")?.into());
    }
    Ok(text.replace(rt.alloc(), part.as_str(), other.as_str())?)
}

/// The run of a section.
pub fn case_of<'a>(rt: &HostRuntime, sections: &str, section: &'a str) -> Result<Case<'a>, Fail> {
    let (name, lines) = section.split_once('\n').ok_or("no name")?;
    let mut case = Case {
        name,
        words: "/run",
        document: spelled(rt, sections, PURCHASE)?,
        number: 0,
        said: "",
        text: spelled(rt, sections, "<report>")?,
    };
    for line in lines.lines() {
        let (key, value) = line.split_once(' ').unwrap_or((line, ""));
        if key == "words" {
            case.words = value;
        } else if key == "document" {
            case.document = spelled(rt, sections, value)?;
        } else if key == "edit" {
            case.document = changed(rt, sections, case.document.as_str(), value)?;
        } else if key == "status" {
            case.number = value.parse().map_err(|_| "no status")?;
        } else if key == "said" {
            case.said = value;
        } else if key == "text" {
            case.text = spelled(rt, sections, value)?;
        } else if key == "change" {
            case.text = changed(rt, sections, case.text.as_str(), value)?;
        } else {
            return Err(format!(in rt.alloc(); "no line of a run: {line}")?.into());
        }
    }
    Ok(case)
}

fn check_case(rt: &HostRuntime, case: &Case<'_>) -> Result<(), Fail> {
    let left = run(rt, case.words, case.document.as_bytes(), &[], &[])?;
    let end = End {
        number: case.number,
        said: case.said,
        text: case.text.as_str(),
    };
    check(rt, case.name, &left, &end)
}

fn check_runs(rt: &HostRuntime, sections: &str) -> Result<(), Fail> {
    for section in sections.split("%% ") {
        if let Some(section) = section.strip_prefix("= ") {
            check_case(rt, &case_of(rt, sections, section)?)?;
        }
    }
    Ok(())
}

#[test]
fn runs_of_documents(rt: HostRuntime) -> Result<(), Fail> {
    check_runs(&rt, turns::ONE_LANE)?;
    check_runs(&rt, turns::TWO_LANES)?;
    check_runs(&rt, turns::CASES)?;
    check_runs(&rt, cards::CASES)?;
    check_runs(&rt, checks::CASES)?;
    check_runs(&rt, inventories::CASES)?;
    check_runs(&rt, kernels::CASES)?;
    check_runs(&rt, limits::CASES)?;
    check_runs(&rt, radio::CASES)?;
    check_runs(&rt, refusals::CASES)?;
    check_runs(&rt, replays::CASES)?;
    check_runs(&rt, selection::CASES)
}
