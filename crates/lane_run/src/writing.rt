//! The lines of an exchange, and those of a transaction that has ended.
ghost use Rattle.std.specs.Prelude.{◌≡◌, ◌++◌, OnOk, OnErr, IsErr, is_some};
ghost use Rattle.std.specs.Io.KnownBytes.{Appends};
ghost use Rattle.ep_base.specs.Streams.Causes.{HasCause};
ghost use Rattle.ep_base.specs.Streams.Io.{AppendsPrefix};
ghost use Rattle.ep_claim.specs.Text.WrittenText.{event_lines, log_lines};
ghost use Rattle.ep_claim.specs.Lanes.LaneText.{trace_part};
ghost use Rattle.rf_field.specs.Fields.{field_of};
ghost use Rattle.rf_frame.specs.Meaning.{heard_of};
ghost use Rattle.session_phases.specs.Told.{told_by};
ghost use Rattle.lane_run.specs.Begun.{closing_text};

use crate::answering::Answers;
use crate::lines::{write_events, write_log};
use ep_base::{Line, Sink, SinkFailed, push_all};
use ep_lanes::{EventList, Exchange, Turned};
use rf_frame::copy_frame;
use scenario::Field;
use trace_io::{Shown, TraceLine, trace_line};

/// Writes what is written of a field's log, where the transaction has ended.
///
/// Errors: the sink failed; a first part of the lines was written.
pub(crate) fn write_closing<K: Sink, By, A: Answers<By>>(
    lane: u8,
    txn: u8,
    turned: Turned,
    field: &Field,
    output: &mut K,
) -> Result<(), SinkFailed>
    ensures ok { OnOk result (Appends (K.written output.old) (K.written output.new) (closing_text turned lane txn (A.field_for (field_of field.now)).log)) }
    ensures err { OnErr result (AppendsPrefix (K.written output.old) (K.written output.new) (closing_text turned lane txn (A.field_for (field_of field.now)).log)) }
    ensures told { is_some (K.written output.new) ≡ is_some (K.written output.old) }
    ensures cause { HasCause (K.faults output.old) (K.faults output.new) (IsErr result) }
{
    match turned {
        Turned::Goes => Ok(()),
        Turned::Ended(_) => write_log(lane, txn, A::log(field), output),
    }
}

/// Writes the trace line of an exchange, where a trace is wanted.
///
/// Errors: the sink failed; a first part of the line was written.
pub(crate) fn write_trace<K: Sink>(
    traced: bool,
    made: &Exchange,
    output: &mut K,
) -> Result<(), SinkFailed>
    ensures ok { OnOk result (Appends (K.written output.old) (K.written output.new)
        (trace_part traced made.now.lane made.now.ask (heard_of made.now.heard))) }
    ensures err { OnErr result (AppendsPrefix (K.written output.old) (K.written output.new)
        (trace_part traced made.now.lane made.now.ask (heard_of made.now.heard))) }
    ensures told { is_some (K.written output.new) ≡ is_some (K.written output.old) }
    ensures cause { HasCause (K.faults output.old) (K.faults output.new) (IsErr result) }
{
    if !traced {
        return Ok(());
    }
    let sent = Shown {
        lane: made.lane,
        wave: made.ask.wave,
        frame: copy_frame(&made.ask.frame),
        wait: made.ask.wait,
    };
    let exchange = TraceLine {
        sent,
        heard: made.heard.copy(),
    };
    let mut line = Line::new();
    trace_line(&exchange, &mut line);
    push_all(output, line.as_str().as_bytes())
}

/// Writes what an exchange adds: its trace line, where a trace is wanted, and then the lines of its events.
///
/// Errors: the sink failed; a first part of the lines was written.
pub(crate) fn write_exchange<K: Sink>(
    traced: bool,
    made: &Exchange,
    txn: u8,
    events: &EventList,
    output: &mut K,
) -> Result<(), SinkFailed>
    ensures ok { OnOk result (Appends (K.written output.old) (K.written output.new)
        (trace_part traced made.now.lane made.now.ask (heard_of made.now.heard) ++ event_lines made.now.lane txn (told_by events.now.items))) }
    ensures err { OnErr result (AppendsPrefix (K.written output.old) (K.written output.new)
        (trace_part traced made.now.lane made.now.ask (heard_of made.now.heard) ++ event_lines made.now.lane txn (told_by events.now.items))) }
    ensures told { is_some (K.written output.new) ≡ is_some (K.written output.old) }
    ensures cause { HasCause (K.faults output.old) (K.faults output.new) (IsErr result) }
{
    match write_trace(traced, made, output) {
        Ok(()) => write_events(made.lane, txn, events, output),
        Err(_) => Err(SinkFailed),
    }
}
