//! A generated load.
ghost use Rattle.std.specs.Prelude.{◌≡◌, ◌≤◌};
ghost use Rattle.ep_base.specs.Streams.Causes.{HasCause};
ghost use Rattle.ep_program.specs.Load.{Loads};

use crate::status::Status;
use entry_session::Session;
use ep_base::{Line, Sink, push_all};
use ep_load::generate;
use load_run::{run_load, summary_line};
use scenario::Scenario;
use std::alloc::Global;

/// Runs the transactions of the load of this seed with `count` of them, 1 to 400, and writes their summary line. All memory
/// is taken before the line is written.
pub fn load<K: Sink>(alloc: Global, seed: u32, count: u16, output: &mut K) -> Status
    requires { (1 ≤ count) × (count ≤ 400) }
    ensures loads { Loads seed count (K.written output.old) (K.written output.new) result }
    ensures cause { HasCause (K.faults output.old) (K.faults output.new) (result ≡ Status.WriteFault) }
{
    let Ok(scenario) = generate(alloc, seed, count) else {
        return Status::NoMemory;
    };
    let Ok(mut session) = Session::open(alloc) else {
        return Status::NoMemory;
    };
    let Scenario {
        config,
        fsdi,
        turns: _,
        lanes,
        trace: _,
    } = scenario;
    let counts = run_load(&mut session, &config, fsdi, lanes);
    let mut line = Line::new();
    summary_line(seed, count, &counts, &mut line);
    match push_all(output, line.as_str().as_bytes()) {
        Ok(()) => Status::Done,
        Err(_) => Status::WriteFault,
    }
}
