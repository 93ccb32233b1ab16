//! The check of a document's trace.
ghost use Rattle.std.specs.Prelude.{◌≡◌, ◌≤◌, [], All, length, map};
ghost use Rattle.std.specs.Io.KnownBytes.{IsAtEnd};
ghost use Rattle.ep_base.specs.Streams.Causes.{HasCause};
ghost use Rattle.ep_base.specs.Streams.Io.{Takes};
ghost use Rattle.ep_program.specs.Check.{Checks, IsCheckText, IsCheckable, Judges, bad_text, good_text, rule_word};
ghost use Rattle.ep_base.specs.declared.limits.TheConstants.{FSDI, TRACE_LINES};
ghost use Rattle.trace_check.specs.Verdicts.{HasLane};
ghost use Rattle.trace_io.specs.Meaning.{traced_of};
ghost use Rattle.ep_program.specs.Input.{IsTooLong};

use crate::input::read;
use crate::status::Status;
use doc_table::{DocKind, Path};
use ep_base::{INPUT, Line, Sink, Source, push_all};
use scenario::Scenario;
use std::alloc::Global;
use trace_check::{Rule, Verdict, check_trace};
use trace_io::{TraceLine, push_number};

/// Reads a document with a trace and says whether its lines are allowed.
pub fn check_document<S: Source, K: Sink>(alloc: Global, input: &mut S, output: &mut K) -> Status
    ensures checks { Checks (S.left input.old) (K.written output.old) (K.written output.new) result }
    ensures whole { result ≡ Status.Done → IsAtEnd (S.left input.new) }
    ensures given { Takes INPUT (S.left input.old) (S.left input.new) (IsTooLong result) }
    ensures read_cause { HasCause (S.faults input.old) (S.faults input.new) (result ≡ Status.ReadFault) }
    ensures write_cause { HasCause (K.faults output.old) (K.faults output.new) (result ≡ Status.WriteFault) }
{
    match read(alloc, input) {
        Ok(scenario) => judge(scenario, output),
        Err(status) => status,
    }
}

// Checks the trace of a document and writes what is said of it.
fn judge<K: Sink>(scenario: Scenario, output: &mut K) -> Status
    requires checkable { IsCheckable scenario }
    ensures judges { Judges scenario (K.written output.old) (K.written output.new) result }
    ensures cause { HasCause (K.faults output.old) (K.faults output.new) (result ≡ Status.WriteFault) }
{
    let Scenario {
        config: _,
        fsdi,
        turns: _,
        lanes: _,
        trace,
    } = scenario;
    let Some(lines) = trace else {
        return Status::BadDocument(Path::root().key("trace").fault(DocKind::Missing, 0));
    };
    let mut line = Line::new();
    push_judgement(&lines, fsdi, &mut line);
    match push_all(output, line.as_str().as_bytes()) {
        Ok(()) => Status::Done,
        Err(_) => Status::WriteFault,
    }
}

// The line of a trace.
fn push_judgement(lines: &[TraceLine], fsdi: u8, out: &mut Line)
    requires code { fsdi ≤ FSDI }
    requires few { length lines.now ≤ TRACE_LINES }
    requires lanes { All HasLane (map traced_of lines.now) }
    requires empty { out.old.bytes ≡ [] }
    ensures { IsCheckText fsdi (map traced_of lines.now) out.new.bytes }
{
    match check_trace(lines, fsdi) {
        Ok(()) => push_good(lines.len() as u32, out),
        Err(verdict) => push_bad(&verdict, out),
    }
}

// The line of a trace of so many lines, each of them allowed.
fn push_good(count: u32, out: &mut Line)
    requires { out.old.bytes ≡ [] }
    ensures { out.new.bytes ≡ good_text count }
{
    out.push_str("trace ok lines=");
    push_number(u64::from(count), out);
    out.push_str("\n");
}

// The line of a trace whose first bad line is this.
fn push_bad(verdict: &Verdict, out: &mut Line)
    requires { out.old.bytes ≡ [] }
    ensures { out.new.bytes ≡ bad_text verdict.now }
{
    out.push_str("trace bad place=");
    push_number(u64::from(verdict.place), out);
    out.push_str(" lane=");
    push_number(u64::from(verdict.lane), out);
    out.push_str(" rule=");
    out.push_str(rule_word(verdict.rule));
    out.push_str("\n");
}

// The word of a rule.
fn rule_word(rule: Rule) -> &'static str
    ensures word { result.now ≡ rule_word rule }
    ensures few { length result.now ≤ 10 }
{
    match rule {
        Rule::Activation => "activation",
        Rule::Reader => "reader",
        Rule::Card => "card",
        Rule::Wait => "wait",
    }
}
