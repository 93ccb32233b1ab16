//! The list of trace lines.
ghost use Rattle.std.specs.Prelude.{◌≡◌, ◌+◌, ◌≤◌, length, map, option_map};
ghost use Rattle.toml.specs.View.{view};
ghost use Rattle.doc_table.specs.Read.{Gives, GivesIfRoom};
ghost use Rattle.doc_table.specs.Section.{place};
ghost use Rattle.trace_io.specs.Meaning.{traced_of};
ghost use Rattle.trace_table.specs.Trace.{line, trace_at};

use doc_table::{DocFault, DocKind, ListOf, Path, Read, Section, TableEnd};
use ep_base::TRACE_LINES;
use std::alloc::Global;
use toml::Value;
use trace_io::{TraceLine, read_trace_line};

/// The trace of an earlier run: the key `trace` of a document's root, whose section this is. `None` where the key is
/// absent.
///
/// Errors: the first fault of the key, and `NoMemory`.
pub fn trace_of(alloc: Global, section: &Section) -> Result<Option<Vec<TraceLine>>, TableEnd>
    requires { length section.now.path.now + 13 ≤ 96 }
    ensures { GivesIfRoom (option_map (λ v. map traced_of v.items)) result (trace_at (place section.now)) }
{
    section.optional(alloc, "trace", &ListOf::texts(0, TRACE_LINES, LineText))
}

// Reads a trace line.
#[derive(Clone, Copy, Debug)]
struct LineText;

impl Read for LineText {
    ghost use Rattle.ep_claim.specs.Text.TraceLine.{TraceLine as TraceLineData};
    ghost use Rattle.trace_io.specs.Meaning.{traced_of};
    ghost use Rattle.trace_table.specs.Trace.{line};

    type Out = TraceLine;

    ghost Meaning = { TraceLineData };

    ghost seen = { traced_of };

    ghost reads = { λ _. line };

    ghost room = { 0 };

    fn read(&self, _alloc: Global, path: &Path, value: &Value) -> Result<TraceLine, TableEnd> {
        Ok(line_text(path, value)?)
    }
}

fn line_text(path: &Path, value: &Value) -> Result<TraceLine, DocFault>
    ensures { Gives traced_of result (line path.now (view value.now)) }
{
    match value.as_str() {
        None => Err(path.fault(DocKind::WrongKind, 0)),
        Some(text) => match read_trace_line(text) {
            Some(line) => Ok(line),
            None => Err(path.fault(DocKind::BadValue, text.len() as i64)),
        },
    }
}
