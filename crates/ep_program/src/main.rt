//! The program: it reads a document, runs the transactions of its lanes by turns and writes their report, checks a trace,
//! or lists their Type A cards; or it runs a generated load and writes its summary line.
#![tactic(auto)]

mod checking;
mod form;
mod input;
mod listing;
mod load;
mod replay;
mod serve;
mod status;
#[cfg(test)]
mod tests;

use ep_base::{Line, StdSink, StdSource};
use ep_lanes::Open;
use serve::serve;
use status::{Status, fault_text};
use std::io;
use std::process::ExitCode;

/// The words after the program's name.
fn words(rt: &HostRuntime) -> io::Result<Vec<String>> {
    let mut words = Vec::new(rt.alloc());
    for word in std::env::args(rt)? {
        words.push(word)?;
    }
    if !words.is_empty() {
        let _name = words.remove(0);
    }
    Ok(words)
}

fn main(rt: HostRuntime) -> ExitCode {
    let status = match words(&rt) {
        Ok(words) => {
            let mut input = StdSource::new(rt.reader());
            let mut output = StdSink::new(io::writer(&rt));
            serve(rt.alloc(), &words, &mut input, &mut output, &mut Open)
        }
        Err(_) => Status::NoMemory,
    };
    let mut text = Line::new();
    fault_text(&status, &mut text);
    if !text.as_str().is_empty() {
        let _ = rt.eprintln(text.as_str());
    }
    ExitCode::from(status.number())
}
