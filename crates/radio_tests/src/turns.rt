//! Purchases an exchange at a time, by a session that is taken up again after each of them.

use crate::purchase::Row;
use arrayvec::ArrayString;
use entry_session::{End, EventList, RoundEnd, Session, Turn};
use ep_base::Line;
use kernel_port::Scripts;
use pre_processing::Prepared;
use report_text::line_of;
use rf_field::Field;
use rf_frame::exchange;
use scenario::Job;
use std::alloc::{AllocGlobal, Global};
use std::process::Abort;
use std::test::Fail;

// Beside the numbers of each row: how the rounds of its last Start B ended, how many exchanges the last link kept, its
// end, and whether the first round was a collision.
const PURCHASES: &str = r#"
# no frame is lost
A | | start card selections approval | 3 11 1 0 Done
# two losses twice are made good
A | fates = [7, '- x', '- x', 1, 'x -', 'x -'] | start card selections approval | 3 16 1 0 Done
# three lost answers end the transaction
A | fates = [7, '- x', '- x', '- x'] | start card link | 1 10 1 3 Link
# two cards of which one goes away
A+A | presence = [[1, 2], [1]] | start collision card-of-seven selections approval | 3 20 2 0 Done collided
# cards of both types collide for ever
A+B | | start collision nocard | 0 192 64 0 NoCard collided
# a card that is presented again
A | scripts = [{kernel = 3, steps = [{send = '80a8000002830000'}], outcome = 'try-again 21'}, {kernel = 3, steps = [{send = '80a8000002830000'}], outcome = 'approved 03'}] | start card selections again card selections approval | 6 22 1 0 Done
"#;

/// The most exchanges of a purchase of the table.
const MOST: u32 = 192;

// The lines of the events so far.
#[derive(Drop)]
struct Lines {
    text: ArrayString<8192>,
}

impl Lines {
    // Adds the lines of the events of one exchange.
    fn add(&mut self, events: &EventList) {
        for event in events.as_slice() {
            let mut line = Line::new();
            line_of(1, 1, event, &mut line);
            let _full = self.text.try_push_str(line.as_str());
        }
    }
}

// What a purchase comes to: its session, its field, its lines and its end.
#[derive(Drop)]
struct Purchase {
    session: Session<Scripts>,
    field: Field,
    lines: Lines,
    end: End,
}

// A purchase of at most so many exchanges.
fn buy(alloc: Global, prepared: &Prepared, job: Job, most: u32) -> Result<Purchase, Fail> {
    let mut field = job.field;
    let mut session = Session::open(alloc).map_err(|_| "memory")?;
    let mut lines = Lines {
        text: ArrayString::new(),
    };
    let mut events = EventList::new();
    let mut turn = session.start(prepared, job.scripts, 8, &mut events);
    lines.add(&events);
    'exchanges: for _ in 0..=most {
        let ask = match turn {
            Turn::Ask(ask) => ask,
            Turn::Ended(end) => {
                return Ok(Purchase {
                    session,
                    field,
                    lines,
                    end,
                });
            }
        };
        let heard = exchange(&mut field, &ask).map_err(|_| "a fault")?;
        let mut events = EventList::new();
        turn = session.advance(&heard, &mut events);
        lines.add(&events);
    }
    Err("more exchanges than thought".into())
}

// Compares the purchase of a row with its lines and its numbers.
fn check_purchase(rt: &(impl Abort + AllocGlobal), row: &Row<'_>, line: &str) -> Result<(), Fail> {
    let (prepared, job) = row.opened(rt)?;
    let purchase = buy(rt.alloc(), &prepared, job, MOST)?;
    assert!(rt;
        purchase.lines.text.as_str() == row.report(rt)?.as_str(),
        "{line}"
    );
    let executed = purchase.field.log().records().len();
    let exchanges = purchase.field.exchanges();
    let rounds = purchase.session.rounds().len();
    let kept = purchase.session.since_toggle().len();
    let end = purchase.end;
    let first = if purchase.session.rounds().first() == Some(&RoundEnd::Collision) {
        " collided"
    } else {
        ""
    };
    let found = format!(in rt.alloc(); "{executed} {exchanges} {rounds} {kept} {end:?}{first}")?;
    assert!(rt; found.as_str() == row.numbers, "{line}");
    Ok(())
}

#[test]
fn purchases_an_exchange_at_a_time(rt: HostRuntime) -> Result<(), Fail> {
    for line in PURCHASES.lines() {
        match Row::of(line) {
            Some(row) => check_purchase(&rt, &row, line)?,
            None => assert!(rt; line.is_empty() || line.starts_with('#'), "{line}"),
        }
    }
    Ok(())
}
