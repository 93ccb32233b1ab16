//! The program at work: what no clause says is the text of a whole purchase, that memory can be had, and what faults of
//! source and sink leave behind.

mod cards;
mod cases;
mod checks;
mod cuts;
mod faults;
mod inventories;
mod kernels;
mod limits;
mod probes;
mod purchase;
mod radio;
mod refusals;
mod replays;
mod selection;
mod turns;
mod words;

use crate::serve::serve;
use crate::status::fault_text;
use ep_base::{Line, MemorySink, MemorySource};
use ep_lanes::{Open, Probe};
use std::test::Fail;

/// What a run left: its status, what it says of it, the text that it wrote, and what it left of the input.
#[derive(Drop)]
pub struct Left {
    number: u8,
    said: Line,
    sink: MemorySink,
    source: MemorySource,
}

/// What a run has to leave.
#[derive(Clone, Copy)]
pub struct End<'a> {
    /// The exit status.
    pub number: u8,
    /// What is said of it.
    pub said: &'a str,
    /// What is written.
    pub text: &'a str,
}

/// What these words leave, each of which comes after a `/`, where the source and the sink fail at these calls.
pub fn run(
    rt: &HostRuntime,
    words: &str,
    document: &[u8],
    source_fails: &[u32],
    sink_fails: &[u32],
) -> Result<Left, Fail> {
    probed(rt, words, document, source_fails, sink_fails, &mut Open)
}

/// The same with any probe.
pub fn probed<P: Probe>(
    rt: &HostRuntime,
    words: &str,
    document: &[u8],
    source_fails: &[u32],
    sink_fails: &[u32],
    probe: &mut P,
) -> Result<Left, Fail> {
    let mut given = Vec::new(rt.alloc());
    for word in words.split('/').skip(1) {
        given.push(String::from_str(rt.alloc(), word)?)?;
    }
    let bytes = document.to_vec(rt.alloc())?;
    let mut source = MemorySource::new(bytes, source_fails.to_vec(rt.alloc())?);
    let fails = sink_fails.to_vec(rt.alloc())?;
    let mut sink = MemorySink::new(rt.alloc(), 65536, fails).map_err(|_| "room")?;
    let status = serve(rt.alloc(), &given, &mut source, &mut sink, probe);
    let mut said = Line::new();
    fault_text(&status, &mut said);
    Ok(Left {
        number: status.number(),
        said,
        sink,
        source,
    })
}

/// A run left this. `name` says which run it was.
pub fn check(rt: &HostRuntime, name: &str, left: &Left, end: &End) -> Result<(), Fail> {
    let said = left.said.as_str();
    let text = std::str::from_utf8(left.sink.written())?;
    if left.number == end.number && said == end.said && text == end.text {
        return Ok(());
    }
    let other = format!(in rt.alloc(); "{name}: {} {said}\n{text}", left.number)?;
    Err(Fail::from(other))
}
