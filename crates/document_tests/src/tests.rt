//! A document that is right, and what is read where one part of it has another text. The clauses say that the tables'
//! definitions are met; these rows say what faults they give, with kind, path and number.
//!
//! A table of cases is a text with one thing on each line:
//!
//! - `for PART`: the place of the rows below is this part of the document, or the one with this name
//! - `with TEXT`: the place has this text, in which `*` is the place of the rows below
//! - `without PART`: the rest of the document hasn't got this part
//! - `at PATH`: `@` in the faults below is this path
//! - `TEXT => END`: with this text in the place, this is what is read
//!
//! In a part and a text, `\n` is a newline, and `<3:a>` is `aaa`. Lines that are empty or begin with `#` say nothing.

mod application;
mod card;
mod combination;
mod order;
mod root;
mod script;
mod transaction;
mod values;

use scenario::{DocEnd, Scenario};
use std::alloc::AllocGlobal;
use std::process::Abort;
use std::test::Fail;

/// Each value stands in it once, so that a part of its text names a place.
const DOCUMENT: &str = r#"
version = 1
[[combinations]]
type = 9
aid = "a0000000031010"
kernel = 2
[[lanes]]
[[lanes.transactions]]
type = 0
amount = 1000
[[lanes.transactions.cards]]
kind = "A"
uid = "01020304"
ppse = ["6a82"]
[[lanes.transactions.cards.apps]]
name = "a0000000041010"
select = ["6f009000"]
[[lanes.transactions.cards.apps.rules]]
prefix = "80a8"
responses = ["80009000"]
[[lanes.transactions.scripts]]
kernel = 3
steps = [{send = "80ae8000"}]
outcome = "approved 03"
"#;

/// The tables of its Combination, of its card, of that card's application, of that application's rule, and of its script,
/// each after its name.
const PARTS: &str = r#"
%% combination
[[combinations]]
type = 9
aid = "a0000000031010"
kernel = 2
%% card
[[lanes.transactions.cards]]
kind = "A"
uid = "01020304"
ppse = ["6a82"]
[[lanes.transactions.cards.apps]]
name = "a0000000041010"
select = ["6f009000"]
[[lanes.transactions.cards.apps.rules]]
prefix = "80a8"
responses = ["80009000"]
%% applications
[[lanes.transactions.cards.apps]]
name = "a0000000041010"
select = ["6f009000"]
[[lanes.transactions.cards.apps.rules]]
prefix = "80a8"
responses = ["80009000"]
%% rules
[[lanes.transactions.cards.apps.rules]]
prefix = "80a8"
responses = ["80009000"]
%% script
[[lanes.transactions.scripts]]
kernel = 3
steps = [{send = "80ae8000"}]
outcome = "approved 03"
"#;

/// The part of the document that a table of cases names.
fn part_of<'a>(name: &'a str) -> &'a str {
    if name == "document" {
        return DOCUMENT;
    }
    for section in PARTS.split("%% ") {
        if let Some(rest) = section.strip_prefix(name) {
            if let Some(part) = rest.strip_prefix('\n') {
                return part;
            }
        }
    }
    name
}

/// A text as it is meant, with its newlines and what stands in it so many times.
fn spelled(rt: &(impl Abort + AllocGlobal), text: &str) -> Result<String, Fail> {
    let mut all = String::new(rt.alloc());
    for piece in text.split('<') {
        let Some((times, rest)) = piece.split_once('>') else {
            all.push_str(piece)?;
            continue;
        };
        let (count, one) = times.split_once(':').expect(rt, text);
        let count: usize = count.parse().ok().expect(rt, text);
        all.push_str(one.repeat(rt.alloc(), count)?.as_str())?;
        all.push_str(rest)?;
    }
    Ok(all.replace(rt.alloc(), r"\n", "\n")?)
}

/// A text with another one for a part that stands in it.
fn changed(
    rt: &(impl Abort + AllocGlobal),
    whole: &str,
    part: &str,
    text: &str,
) -> Result<String, Fail> {
    assert!(rt; whole.contains(part), "{part} in {whole}");
    Ok(whole.replacen(rt.alloc(), part, text, 1)?)
}

/// What the bytes of a document come to: that they are read, that they are no TOML, or the kind, the path and the number of
/// their first fault.
fn end_of(rt: &(impl Abort + AllocGlobal), document: &[u8]) -> Result<String, Fail> {
    let alloc = rt.alloc();
    let Some(end) = Scenario::of_bytes(alloc, document).err() else {
        return Ok("read".to_string(alloc)?);
    };
    match end {
        DocEnd::NotToml => Ok("NotToml".to_string(alloc)?),
        DocEnd::NoMemory => Err("memory".into()),
        DocEnd::Fault(fault) => Ok(format!(in alloc;
            "{:?} {} {}",
            fault.kind,
            fault.path.as_str(),
            fault.number
        )?),
    }
}

#[test]
fn first_faults(rt: HostRuntime) -> Result<(), Fail> {
    check_table(&rt, root::ROOT)?;
    check_table(&rt, root::LANES)?;
    check_table(&rt, combination::COMBINATIONS)?;
    check_table(&rt, transaction::TRANSACTIONS)?;
    check_table(&rt, transaction::CARDS)?;
    check_table(&rt, card::CARD_A)?;
    check_table(&rt, card::CARD_B)?;
    check_table(&rt, application::APPLICATIONS)?;
    check_table(&rt, application::RULES)?;
    check_table(&rt, script::SCRIPTS)?;
    check_table(&rt, script::STEPS)?;
    check_table(&rt, order::ORDER)
}

/// Reads the document of each row of a table of cases, and compares what it comes to.
fn check_table(rt: &(impl Abort + AllocGlobal), table: &str) -> Result<(), Fail> {
    let mut place = "*".to_string(rt.alloc())?;
    let mut path = String::new(rt.alloc());
    for line in table.lines() {
        if let Some(part) = line.strip_prefix("for ") {
            let part = spelled(rt, part_of(part))?;
            place = changed(rt, DOCUMENT, part.as_str(), "*")?;
        } else if let Some(text) = line.strip_prefix("with ") {
            place = changed(rt, place.as_str(), "*", spelled(rt, text)?.as_str())?;
        } else if let Some(part) = line.strip_prefix("without ") {
            place = changed(rt, place.as_str(), part_of(part), "")?;
        } else if let Some(prefix) = line.strip_prefix("at ") {
            path = prefix.to_string(rt.alloc())?;
        } else if let Some((text, end)) = line.split_once("=> ") {
            let text = spelled(rt, text.trim_end())?;
            let document = changed(rt, place.as_str(), "*", text.as_str())?;
            let wanted = end.replace(rt.alloc(), "@", path.as_str())?;
            let found = end_of(rt, document.as_bytes())?;
            assert!(rt; found.as_str() == wanted.as_str(), "{line}");
        } else {
            assert!(rt; line.is_empty() || line.starts_with('#'), "{line}");
        }
    }
    Ok(())
}
