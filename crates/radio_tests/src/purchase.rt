//! The document of a usual purchase, and the rows of purchases.
//!
//! A row is `CARDS | LINES | REPORT | NUMBERS`: the name of the cards, a line of the transaction, the names of what is
//! reported, and what the purchase comes to. Rows that are empty or begin with `#` say nothing.

use pre_processing::{Prepared, prepare};
use scenario::{Job, Scenario};
use std::alloc::AllocGlobal;
use std::process::Abort;
use std::test::Fail;

const DOCUMENT: &str = r#"
version = 1
[[combinations]]
type = 0
aid = "a0000000031010"
kernel = 3
[[lanes]]
[[lanes.transactions]]
type = 0
amount = 1000
"#;

const IMAGE: &str =
    r#"ppse = ["6f23840e325041592e5359532e4444463031a511bf0c0e610c4f07a00000000310108701019000"], apps = [{name = "a0000000031010", select = ["6f098407a00000000310109000"], rules = [{prefix = "80a8", responses = ["80062000080101009000"], wtx = 0, wtxm = 3}]}]"#;

const APPROVES: &str =
    "scripts = [{kernel = 3, steps = [{send = '80a8000002830000'}], outcome = 'approved 03'}]";

/// A row of a table of purchases.
#[derive(Clone, Copy)]
pub(crate) struct Row<'a> {
    cards: &'a str,
    lines: &'a str,
    report: &'a str,
    /// How many commands were executed, how many exchanges were made, and what else the table compares.
    pub numbers: &'a str,
}

impl<'a> Row<'a> {
    /// The row of a line, or `None` where a column is missing.
    pub(crate) fn of(line: &'a str) -> Option<Row<'a>> {
        let (cards, rest) = line.split_once('|')?;
        let (lines, rest) = rest.split_once('|')?;
        let (report, numbers) = rest.split_once('|')?;
        Some(Row {
            cards: cards.trim(),
            lines: lines.trim(),
            report: report.trim(),
            numbers: numbers.trim(),
        })
    }

    /// What Pre-Processing gives for the row's purchase, and its transaction.
    pub(crate) fn opened(&self, rt: &(impl Abort + AllocGlobal)) -> Result<(Prepared, Job), Fail> {
        let alloc = rt.alloc();
        let cards = cards_of(self.cards).expect(rt, self.cards);
        let cards = cards.replace(alloc, "IMAGE", IMAGE)?;
        let scripts = if self.lines.contains("scripts") {
            ""
        } else {
            APPROVES
        };
        let lines = self.lines;
        let document = format!(in alloc; "{DOCUMENT}cards = [{cards}]\n{lines}\n{scripts}\n")?;
        let document = if self.cards == "waits" {
            document.replace(alloc, "wtx = 0", "wtx = 2")?
        } else {
            document
        };
        let scenario = Scenario::of_bytes(alloc, document.as_bytes()).ok();
        let Scenario { config, lanes, .. } = scenario.expect(rt, "a document that is read");
        let lane = lanes.into_iter().next().expect(rt, "a lane");
        let job = lane.into_iter().next().expect(rt, "a transaction");
        Ok((prepare(&config, 0, 1000), job))
    }

    /// What is reported of the row's purchase.
    pub(crate) fn report(&self, rt: &(impl Abort + AllocGlobal)) -> Result<String, Fail> {
        let mut report = String::new(rt.alloc());
        for name in self.report.split(' ') {
            report.push_str(lines_of(name).expect(rt, name))?;
        }
        Ok(report)
    }
}

// The cards of each name.
const CARDS: &str = r#"
none |
A | {kind = 'A', uid = '01020304', IMAGE}
waits | {kind = 'A', uid = '01020304', IMAGE}
B | {kind = 'B', pupi = '11223344', IMAGE}
A+B | {kind = 'A', uid = '01020304', IMAGE}, {kind = 'B', pupi = '11223344', IMAGE}
A+A | {kind = 'A', uid = '04112233445566', IMAGE}, {kind = 'A', uid = '041122778899aa', IMAGE}
"#;

// The cards of this name.
fn cards_of(name: &str) -> Option<&'static str> {
    for row in CARDS.lines() {
        if let Some((key, cards)) = row.split_once(" |") {
            if key == name {
                return Some(cards.trim());
            }
        }
    }
    None
}

// The lines of a report, after the name of each group of them.
const REPORT: &str = "
%% start
1.1 start type=00 amount=1000
1.1 pre 1 aid=a0000000031010 kernel=3 allowed=1 status=0 zero=0 floor=0 cvm=0 ttq=-
1.1 message 15 Present card
%% collision
1.1 message 19 Please present one card only
%% card
1.1 card A 01020304
%% card-of-seven
1.1 card A 04112233445566
%% card-b
1.1 card B 11223344
%% selections
1.1 apdu 00a404000e325041592e5359532e444446303100 6f23840e325041592e5359532e4444463031a511bf0c0e610c4f07a00000000310108701019000
1.1 candidates 1
1.1 apdu 00a4040007a000000003101000 6f098407a00000000310109000
1.1 activate 3 combination=1 name=a0000000031010 ttq=- fci=6f098407a0000000031010
%% again
1.1 apdu 80a8000002830000 80062000080101009000
1.1 outcome try-again
1.1 message 21 Present card again
%% approval
1.1 apdu 80a8000002830000 80062000080101009000
1.1 outcome approved
1.1 message 03 Approved
1.1 end done
%% link
1.1 end link
%% nocard
1.1 end nocard
";

// The lines of a report that have this name.
fn lines_of(name: &str) -> Option<&'static str> {
    for section in REPORT.split("%% ") {
        if let Some(rest) = section.strip_prefix(name) {
            if let Some(lines) = rest.strip_prefix('\n') {
                return Some(lines);
            }
        }
    }
    None
}
