//! The text of a fault in a document.
ghost use Rattle.std.specs.Prelude.{◌≡◌, ◌≤◌, [], length};
ghost use Rattle.report_text.specs.FaultWords.{document_fault, fault_word};

use doc_table::{DocFault, DocKind};
use ep_base::Line;
use itoa::Buffer;

/// Writes what is wrong with a document, without a newline: the kind of the fault, the path of its place, and its
/// number. `out` is empty.
pub fn document_fault(fault: &DocFault, out: &mut Line)
    requires { out.old.bytes ≡ [] }
    ensures { out.new.bytes ≡ document_fault fault.now }
{
    let mut buffer = Buffer::new();
    out.push_str("ep_program: bad document: ");
    out.push_str(fault_word(fault.kind));
    out.push_str(" at ");
    out.push_str(fault.path.as_str());
    out.push_str(" (");
    out.push_str(buffer.format(fault.number));
    out.push_str(")");
}

// The word of a kind of fault.
fn fault_word(kind: DocKind) -> &'static str
    ensures word { result.now ≡ fault_word kind }
    ensures most { length result.now ≤ 11 }
{
    match kind {
        DocKind::UnknownKey => "unknown-key",
        DocKind::Missing => "missing",
        DocKind::WrongKind => "wrong-kind",
        DocKind::BadValue => "bad-value",
        DocKind::TooMany => "too-many",
        DocKind::Conflict => "conflict",
    }
}
