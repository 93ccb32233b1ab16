//! Purchases over the radio, line by line.

use crate::purchase::Row;
use arrayvec::ArrayString;
use entry_session::{Ran, Session};
use ep_base::Line;
use kernel_port::{Event, Events, EventsFailed};
use link::RfTransport;
use report_text::line_of;
use std::alloc::AllocGlobal;
use std::process::Abort;
use std::test::Fail;

const PURCHASES: &str = r#"
# no frame is lost
A | | start card selections approval | 3 11
# a lost answer is heard again
A | fates = [9, '- x'] | start card selections approval | 3 12
# two losses twice are made good
A | fates = [7, '- x', '- x', 1, 'x -', 'x -'] | start card selections approval | 3 16
# three lost answers end the transaction
A | fates = [7, '- x', '- x', '- x'] | start card link | 1 10
# three lost frames end the transaction
A | fates = [7, 'x -', 'x -', 'x -'] | start card link | 0 10
# a damaged frame is seen
A | fates = [7, '- b0:0001'] | start card selections approval | 3 12
# a card that leaves was asked once
A | fates = [9, '- v'] | start card selections link | 3 12
A | fates = [9, 'v -'] | start card selections link | 2 12
# a card that asks for time
waits | fates = [11, 'x -'] | start card selections approval | 3 15
# two cards of which one goes away
A+A | presence = [[1, 2], [1]] | start collision card-of-seven selections approval | 3 20
# cards of both types collide for ever
A+B | | start collision nocard | 0 192
# a collision that isn't heard
A+B | fates = [2, '- x'] | start card selections approval | 3 11
# nobody comes
none | | start nocard | 0 128
# a card of Type B
B | | start card-b selections approval | 3 7
"#;

// What keeps the line of each event.
#[derive(Drop)]
struct Report {
    text: ArrayString<8192>,
}

impl Events for Report {
    ghost use Rattle.std.specs.Prelude.{⊤};

    ghost State = { Unit {0} };

    ghost state = { λ _. tt };

    ghost steps = { record { take = λ s x. s; cut = λ s x after. ⊤ } };

    ghost faults = { λ _. 0 };

    ghost anchor = { λ _. 0 };

    fn take(&mut self, event: &Event) -> Result<(), EventsFailed> {
        let mut line = Line::new();
        line_of(1, 1, event, &mut line);
        let _full = self.text.try_push_str(line.as_str());
        Ok(())
    }
}

// Compares the purchase of a row with its lines, how many commands were executed, and how many exchanges were made.
fn check_purchase(rt: &(impl Abort + AllocGlobal), row: &Row<'_>, line: &str) -> Result<(), Fail> {
    let (prepared, job) = row.opened(rt)?;
    let mut session = Session::open(rt.alloc()).map_err(|_| "memory")?;
    let mut transport = RfTransport::open(job.field, 8);
    let mut report = Report {
        text: ArrayString::new(),
    };
    match session.run(&prepared, job.scripts, &mut transport, &mut report) {
        Ran::Ended(_) => {}
        Ran::Device | Ran::EventsFailed => return Err("a fault".into()),
    }
    assert!(rt; report.text.as_str() == row.report(rt)?.as_str(), "{line}");
    let field = transport.medium();
    let executed = field.log().records().len();
    let exchanges = field.exchanges();
    let found = format!(in rt.alloc(); "{executed} {exchanges}")?;
    assert!(rt; found.as_str() == row.numbers, "{line}");
    Ok(())
}

#[test]
fn purchases(rt: HostRuntime) -> Result<(), Fail> {
    for line in PURCHASES.lines() {
        match Row::of(line) {
            Some(row) => check_purchase(&rt, &row, line)?,
            None => assert!(rt; line.is_empty() || line.starts_with('#'), "{line}"),
        }
    }
    Ok(())
}
