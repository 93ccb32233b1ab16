//! The lines of events and of a log, one after another.
ghost use Rattle.std.specs.Prelude.{◌≡◌, OnOk, OnErr, IsErr, is_some};
ghost use Rattle.std.specs.Io.KnownBytes.{Appends};
ghost use Rattle.ep_base.specs.Streams.Causes.{HasCause};
ghost use Rattle.ep_base.specs.Streams.Io.{AppendsPrefix};
ghost use Rattle.ep_claim.specs.Text.WrittenText.{event_lines, log_lines};
ghost use Rattle.session_phases.specs.Told.{told_by};

use card_image::Record;
use ep_base::{Line, Sink, SinkFailed, push_all};
use kernel_port::EventList;
use report_text::{line_of, log_line};

/// Writes the lines of events of this lane's transaction. This takes no memory.
///
/// Errors: the sink failed; a first part of the lines was written.
pub fn write_events<K: Sink>(
    lane: u8,
    txn: u8,
    events: &EventList,
    output: &mut K,
) -> Result<(), SinkFailed>
    ensures ok { OnOk result (Appends (K.written output.old) (K.written output.new) (event_lines lane txn (told_by events.now.items))) }
    ensures err { OnErr result (AppendsPrefix (K.written output.old) (K.written output.new) (event_lines lane txn (told_by events.now.items))) }
    ensures told { is_some (K.written output.new) ≡ is_some (K.written output.old) }
    ensures cause { HasCause (K.faults output.old) (K.faults output.new) (IsErr result) }
{
    let mut rest = events.as_slice();
    'each: while let Some((event, others)) = rest.split_first() {
        let mut line = Line::new();
        line_of(lane, txn, event, &mut line);
        match push_all(output, line.as_str().as_bytes()) {
            Ok(()) => {}
            Err(_) => return Err(SinkFailed),
        }
        rest = others;
    }
    Ok(())
}

/// Writes the lines of a log.
///
/// Errors: the sink failed; a first part of the lines was written.
pub fn write_log<K: Sink>(
    lane: u8,
    txn: u8,
    records: &[Record],
    output: &mut K,
) -> Result<(), SinkFailed>
    ensures ok { OnOk result (Appends (K.written output.old) (K.written output.new) (log_lines lane txn records.now)) }
    ensures err { OnErr result (AppendsPrefix (K.written output.old) (K.written output.new) (log_lines lane txn records.now)) }
    ensures told { is_some (K.written output.new) ≡ is_some (K.written output.old) }
    ensures cause { HasCause (K.faults output.old) (K.faults output.new) (IsErr result) }
{
    let mut rest = records;
    'each: while let Some((entry, others)) = rest.split_first() {
        let mut line = Line::new();
        log_line(lane, txn, entry, &mut line);
        match push_all(output, line.as_str().as_bytes()) {
            Ok(()) => {}
            Err(_) => return Err(SinkFailed),
        }
        rest = others;
    }
    Ok(())
}
