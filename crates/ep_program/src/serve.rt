//! The top call.
ghost use Rattle.std.specs.Prelude.{◌≡◌, true, false, Some};
ghost use Rattle.std.specs.Io.KnownBytes.{IsAtEnd};
ghost use Rattle.ep_base.specs.Streams.Causes.{HasCause};
ghost use Rattle.ep_base.specs.Streams.Io.{Takes};
ghost use Rattle.ep_program.specs.Headline.{IsReady};
ghost use Rattle.ep_program.specs.Input.{IsTooLong};
ghost use Rattle.ep_program.specs.OwnReplay.{ReplaysOwnTrace, ReplaysRecorded};
ghost use Rattle.ep_program.specs.Serve.{Reports, Runs, Serves};
ghost use Rattle.ep_program.specs.Words.{form_of, reads_input};

use crate::checking::check_document;
use crate::form::{Form, form_of};
use crate::input::read;
use crate::listing::inventory_document;
use crate::load::load;
use crate::replay::replay_document;
use crate::status::Status;
use ep_base::{INPUT, NoMemory, Sink, Source};
use ep_lanes::{Lanes, Probe};
use lane_run::{report_lanes, works_of};
use scenario::Scenario;
use std::alloc::Global;

/// Does what the words say: `run` reads a document from the input, runs the transactions of its lanes over the radio, each
/// with the field of its own cards, and writes their report; `run trace` writes each exchange with the radio as well, before
/// the lines of the events that it adds; `replay` runs the lanes against the document's trace in place of their cards, and
/// writes their events; `check` says whether the lines of the document's trace are allowed; `inventory` lists the Type A cards of its transactions; `load` with a seed and a count runs the
/// transactions of a generated load and writes their summary line. All memory is taken before the first line is written.
///
/// # Reports
///
/// The lanes are opened in rising order. Then each turn makes one exchange of one lane: the lane that the document's turn
/// list names next, where lanes without an exchange left are skipped, and after the list's end the lanes in rising order,
/// again and again. Where a transaction ends, its log follows, and the lane's next one is opened in the same turn.
///
/// What the reader hears in each exchange is what the probe makes of what the field gave. Where the probe tells its steps,
/// these fix all exchanges together, one after another: `Done` comes with the text of this run, whole, and with the probe as
/// the last exchange left it. Whatever such a probe makes of the hearings, the exchanges stay within their bounds: a poll round
/// has at most 11, a Start B 64 rounds, a transaction one Start B more than scripts and at most the commands that its scripts
/// and Combinations bound, a command 280 toggles of the reader's number, and from one toggle to the next, or from the opening
/// of the link, there are at most 32.
///
/// This is the promise of the whole program, for the probe that gives on what it gets. Whatever frames are lost or damaged
/// by a burst, whichever cards are present in a round and whenever they leave, and in whatever order the lanes make their
/// exchanges:
///
/// - In a transaction that comes to its end the events are those of the Entry Point rules over a perfect channel, for the
///   ends that its poll rounds had, and the cards executed exactly the commands of that run, each once and in their order.
/// - A link fails exactly where an open link makes its third bad exchange of a command since the reader's last toggle, or
///   since the link was opened, and the transaction ends with it. Then the report has the events before that command and
///   the failed link's end, and the cards executed the commands before it, each once, and that command at most once.
/// - A card is never found to break the rules of the link, and no device fails.
/// - Where every frame of a lane's transactions passes, no link fails, and the lane's lines, without the trace lines, are
///   those of the events and the commands of the perfect runs.
/// - Each lane writes what it writes alone, with its own number and without a turn list.
/// - There is one such text, and no other can be written.
/// - A transaction's log has at most as many records as it sends commands at most, and at each exchange a record is free.
///
/// A sink that fails leaves a first part of that text, with `WriteFault`.
///
/// # Replays
///
/// The lanes take turns as in a report. Each exchange is compared with the next line of the trace: lane, wave, frame and
/// waiting number. Where they are the same, the lane hears what the line says. `Done` comes only where each exchange has
/// its line and each line its exchange, and `Mismatch` with the first place where that isn't so, of which what is wanted and
/// what was sent differ; both with all that was written until then, and `WriteFault` with a first part of it. The probe isn't
/// asked.
///
/// Where the trace is that of the document's own run, with the probe that gives on what it gets, the replay is that run told
/// once more: `Done` comes with the run's text without its log lines, `WriteFault` with a first part of that, and `Mismatch`
/// doesn't come.
///
/// # Checks
///
/// The lines of each lane are allowed where some lines after them complete them to whole poll rounds and links with cards, as
/// the reader's rules give them for some commands. `Done` comes with one line: that all lines are allowed, and how many
/// they are, or else the first bad one's place and lane, and the first rule that it breaks; `WriteFault` with a first part of
/// it. No transaction is run, and the probe isn't asked.
///
/// # Inventories
///
/// Lanes and transactions come in rising order. Of each transaction every Type A card is listed once, whether it is present
/// or not, by its UID and SAK, in rising order of the bits of its levels' values. `Done` comes with the whole text of the
/// document, and `WriteFault` with a first part of it; no transaction is run, and the probe isn't asked.
///
/// # Loads
///
/// The line has the numbers of the load's transactions together, each over the field of its own cards, and there is one such
/// line alone: neither the input nor the probe is asked, and both are as before. `Done` comes with the whole line, and
/// `WriteFault` with a first part of it.
///
/// # Statuses
///
/// Each status has its reason: `Usage` the words, `BadDocument` the document's first fault, `NotToml` the input. `TooLong`
/// comes exactly where more than 1,048,576 bytes were given, and every other answer to a document only where not more were.
/// `ReadFault` and `WriteFault` come only where a count of faults rose, and `NoMemory` may come for every document and every
/// load. A replay or a check without a trace is a `BadDocument`, after all other faults. But for `Done`, `WriteFault` and `Mismatch`
/// nothing is written, and the probe is as it was. A load answers `Done`, `WriteFault` or `NoMemory` alone. With
/// `Usage` the input is as before too.
pub fn serve<S: Source, K: Sink, P: Probe>(
    alloc: Global,
    words: &[String],
    input: &mut S,
    output: &mut K,
    probe: &mut P,
) -> Status
    ensures serves { Serves P.steps (form_of words.now) (S.left input.old)
        (record { written = K.written output.old; probe = P.state probe.old })
        (record { written = K.written output.new; probe = P.state probe.new }) result }
    ensures own_trace { form_of words.now ≡ Some Form.Replay →
        ReplaysOwnTrace (S.left input.old) (K.written output.old) (K.written output.new) result }
    ensures recorded { form_of words.now ≡ Some Form.Replay →
        ReplaysRecorded (S.left input.old) (K.written output.old) (K.written output.new) result }
    ensures whole { result ≡ Status.Done → reads_input (form_of words.now) ≡ true → IsAtEnd (S.left input.new) }
    ensures given { Takes INPUT (S.left input.old) (S.left input.new) (IsTooLong result) }
    ensures untouched { reads_input (form_of words.now) ≡ false →
        (S.left input.new ≡ S.left input.old) × (S.faults input.new ≡ S.faults input.old) }
    ensures read_cause { HasCause (S.faults input.old) (S.faults input.new) (result ≡ Status.ReadFault) }
    ensures write_cause { HasCause (K.faults output.old) (K.faults output.new) (result ≡ Status.WriteFault) }
{
    match form_of(words) {
        Some(Form::Run) => report(alloc, false, input, output, probe),
        Some(Form::RunTrace) => report(alloc, true, input, output, probe),
        Some(Form::Replay) => replay_document(alloc, input, output),
        Some(Form::Check) => check_document(alloc, input, output),
        Some(Form::Inventory) => inventory_document(alloc, input, output),
        Some(Form::Load { seed, count }) => load(alloc, seed, count, output),
        None => Status::Usage,
    }
}

// Reads a document, runs its transactions and writes their report.
fn report<S: Source, K: Sink, P: Probe>(
    alloc: Global,
    traced: bool,
    input: &mut S,
    output: &mut K,
    probe: &mut P,
) -> Status
    ensures reports { Reports P.steps traced (S.left input.old)
        (record { written = K.written output.old; probe = P.state probe.old })
        (record { written = K.written output.new; probe = P.state probe.new }) result }
    ensures whole { result ≡ Status.Done → IsAtEnd (S.left input.new) }
    ensures given { Takes INPUT (S.left input.old) (S.left input.new) (IsTooLong result) }
    ensures read_cause { HasCause (S.faults input.old) (S.faults input.new) (result ≡ Status.ReadFault) }
    ensures write_cause { HasCause (K.faults output.old) (K.faults output.new) (result ≡ Status.WriteFault) }
{
    match read(alloc, input) {
        Ok(scenario) => run(alloc, scenario, traced, output, probe),
        Err(status) => status,
    }
}

// Runs the transactions of a document and writes their report.
fn run<K: Sink, P: Probe>(
    alloc: Global,
    scenario: Scenario,
    traced: bool,
    output: &mut K,
    probe: &mut P,
) -> Status
    requires ready { IsReady scenario }
    ensures runs { Runs P.steps traced scenario
        (record { written = K.written output.old; probe = P.state probe.old })
        (record { written = K.written output.new; probe = P.state probe.new }) result }
    ensures cause { HasCause (K.faults output.old) (K.faults output.new) (result ≡ Status.WriteFault) }
{
    let Scenario {
        config,
        fsdi,
        turns,
        lanes,
        trace: _,
    } = scenario;
    let count = lanes.len() as u8;
    let mut works = match works_of(alloc, lanes) {
        Ok(works) => works,
        Err(NoMemory) => return Status::NoMemory,
    };
    let mut lanes = match Lanes::open(alloc, count, turns) {
        Ok(lanes) => lanes,
        Err(NoMemory) => return Status::NoMemory,
    };
    match report_lanes(&mut lanes, &config, fsdi, traced, &mut works, output, probe) {
        Ok(()) => Status::Done,
        Err(_) => Status::WriteFault,
    }
}
