//! Traces in documents: what they say, and where the first fault is.
//!
//! A row is a document, and after `=>` the lines that are read, each after a `|`, or that there is no trace, or the first
//! fault.

use crate::rows::{spelled, table, told_end};
use doc_table::{Path, Section};
use ep_base::Line;
use std::alloc::AllocGlobal;
use std::process::Abort;
use std::test::Fail;
use trace_io::trace_line;
use trace_table::trace_of;

/// The fourth of them is the trace of a card of Type A that has no directory.
const TRACES: &str = r#"
 => none
trace = [] => read
trace = ['x 8 N 9320 16384 *', 'x 2 A B267c7 0 ?'] => read|x 8 N 9320 16384 *|x 2 A b267c7 0 ?
trace = ['x 1 S 52 0 =0400', 'x 1 A 500057cd 0 -', 'x 1 B 0500083973 0 -', 'x 1 S 52 0 =0400', 'x 1 N 9320 0 =0102030404', 'x 1 A 937001020304048e25 0 =20fc70', 'x 1 A e0803173 0 =03284087e5', 'x 1 A 0200a404000e325041592e5359532e444446303100e042 16 =026a82932f', 'x 1 A c2e0b4 16 =c2e0b4'] => read|x 1 S 52 0 =0400|x 1 A 500057cd 0 -|x 1 B 0500083973 0 -|x 1 S 52 0 =0400|x 1 N 9320 0 =0102030404|x 1 A 937001020304048e25 0 =20fc70|x 1 A e0803173 0 =03284087e5|x 1 A 0200a404000e325041592e5359532e444446303100e042 16 =026a82932f|x 1 A c2e0b4 16 =c2e0b4
trace = 1 => WrongKind trace 0
trace = 'x 1 S 52 0 -' => WrongKind trace 0
trace = ['', 1] => WrongKind trace 0
trace = [true] => WrongKind trace 0
trace = [''] => BadValue trace[1] 0
trace = ['x 1 S 52 0 -', 'x 9 S 52 0 -'] => BadValue trace[2] 12
trace = ["x 1 S 52 0 -\n"] => BadValue trace[1] 13
trace = ['x 01 S 52 0 -'] => BadValue trace[1] 13
trace = ['x 1 S 52 16385 -'] => BadValue trace[1] 16
trace = ['x 1 S 52 0 é'] => BadValue trace[1] 13
trace = [<65537:'',>] => TooMany trace 65537
trace = [<65536:'',>] => BadValue trace[1] 0"#;

/// The trace of a document, as in a row.
fn told_trace(rt: &(impl Abort + AllocGlobal), document: &str) -> Result<String, Fail> {
    let table = table(rt, document);
    let path = Path::root();
    let read = match trace_of(rt.alloc(), &Section::unchecked(&path, &table)) {
        Ok(read) => read,
        Err(end) => return told_end(rt, &end),
    };
    let Some(lines) = read else {
        return Ok("none".to_string(rt.alloc())?);
    };
    let mut told = "read".to_string(rt.alloc())?;
    for line in &lines {
        let mut out = Line::new();
        trace_line(line, &mut out);
        told.push_str("|")?;
        told.push_str(out.as_str().strip_suffix("\n").expect(rt, document))?;
    }
    Ok(told)
}

#[test]
fn traces(rt: HostRuntime) -> Result<(), Fail> {
    for row in TRACES.lines().skip(1) {
        let (document, wanted) = row.split_once(" => ").expect(&rt, row);
        let found = told_trace(&rt, spelled(&rt, document)?.as_str())?;
        assert!(rt; found.as_str() == wanted, "{row}");
    }
    Ok(())
}
