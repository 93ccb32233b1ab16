//! What the public calls of a scenario say of a document that is accepted.
//!
//! A row of the table is `COUNT | LINES | VALUES`: so many lanes, the document's other lines, and what is read: the frame
//! size code, the exponent, how many lanes, the turns, and of a trace the lane, the waiting number and the frame of each
//! line.

use super::{DOCUMENT, end_of, spelled};
use scenario::Scenario;
use std::alloc::AllocGlobal;
use std::process::Abort;
use std::test::Fail;

const VALUES: &str = r#"
1 | version = 1 | 8 2 1 []
1 | version = 0x1 | 8 2 1 []
1 | version = 1\nfsdi = 3 | 3 2 1 []
1 | version = 1\nexponent = 0 | 8 0 1 []
2 | version = 1 | 8 2 2 []
3 | version = 1 | 8 2 3 []
4 | version = 1 | 8 2 4 []
5 | version = 1 | 8 2 5 []
6 | version = 1 | 8 2 6 []
7 | version = 1 | 8 2 7 []
8 | version = 1 | 8 2 8 []
2 | version = 1\nturns = [] | 8 2 2 []
2 | version = 1\nturns = [1, 1, 2, 1] | 8 2 2 [1, 1, 2, 1]
1 | version = 1\nturns = [1] | 8 2 1 [1]
8 | version = 1\nturns = [8, 1, 0x7] | 8 2 8 [8, 1, 7]
2 | version = 1\nturns = [<4096:2,>] | 8 2 2 [<4095:2, >2]
1 | version = 1\ntrace = [] | 8 2 1 [] trace
1 | version = 1\ntrace = ['x 1 S 52 0 -', 'x 8 A B267c7 16384 =0a'] | 8 2 1 [] trace, 1 0 [82], 8 16384 [178, 103, 199]"#;

/// What a document says that is read.
fn read(rt: &(impl Abort + AllocGlobal), document: &str) -> Scenario {
    let scenario = Scenario::of_bytes(rt.alloc(), document.as_bytes()).ok();
    scenario.expect(rt, document)
}

/// What is read of a document, as in the table.
fn told_of(rt: &impl AllocGlobal, scenario: &Scenario) -> Result<String, Fail> {
    let mut told = format!(in rt.alloc();
        "{} {} {} {:?}",
        scenario.fsdi,
        scenario.config.exponent(),
        scenario.lanes.len(),
        scenario.turns.as_slice()
    )?;
    let Some(lines) = &scenario.trace else {
        return Ok(told);
    };
    told.push_str(" trace")?;
    for line in lines {
        let sent = &line.sent;
        let one = format!(in rt.alloc();
            ", {} {} {:?}",
            sent.lane,
            sent.wait,
            sent.frame.as_slice()
        )?;
        told.push_str(one.as_str())?;
    }
    Ok(told)
}

/// Compares what is read of the document of a row.
fn check_row(rt: &(impl Abort + AllocGlobal), row: &str) -> Result<(), Fail> {
    let (count, rest) = row.split_once(" | ").expect(rt, row);
    let (lines, wanted) = rest.split_once(" | ").expect(rt, row);
    let document = format!(in rt.alloc();
        "{lines}\nlanes = [<{count}:{{transactions = [{{type = 0, amount = 0}}]}},>]\n"
    )?;
    let document = spelled(rt, document.as_str())?;
    let found = told_of(rt, &read(rt, document.as_str()))?;
    assert!(rt; found.as_str() == spelled(rt, wanted)?.as_str(), "{row}");
    Ok(())
}

#[test]
fn values_that_are_read(rt: HostRuntime) -> Result<(), Fail> {
    for row in VALUES.lines().skip(1) {
        check_row(&rt, row)?;
    }
    // Bytes that are no text.
    let end = end_of(&rt, b"version = '\xff'")?;
    assert!(rt; end.as_str() == "NotToml");
    Ok(())
}

#[test]
fn a_transaction_before_its_first_round(rt: HostRuntime) -> Result<(), Fail> {
    let scenario = read(&rt, DOCUMENT);
    assert!(rt; scenario.lanes.len() == 1);
    let lane = scenario.lanes.first().expect(&rt, "a lane");
    assert!(rt; lane.len() == 1);
    let job = lane.first().expect(&rt, "a transaction");
    assert!(rt; (job.txn_type, job.amount) == (0, 1000));
    let field = &job.field;
    let before = (field.rounds(), field.exchanges(), field.gone());
    assert!(rt; before == (0, 0, false));
    // One script with one step, and no Combination of the type: two SELECT PPSE, a step, and one more.
    assert!(rt; (field.log().spare(), field.log().records().len()) == (4, 0));
    Ok(())
}
