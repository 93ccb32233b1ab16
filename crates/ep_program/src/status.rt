//! How the program ends, and what it says then.
ghost use Rattle.std.specs.Prelude.{◌≡◌, [], length};
ghost use Rattle.ep_program.specs.Status.{number_of, fault_text_of};

use ep_base::Line;
use report_text::document_fault;
use scenario::DocFault;
use trace_io::{Mismatch, mismatch_text};

/// How the program ends.
#[derive(Debug, Drop)]
pub enum Status {
    /// All was written.
    Done,
    /// The input failed; nothing was written.
    ReadFault,
    /// The output failed; what was written is a first part of the report.
    WriteFault,
    /// Memory ran out; nothing was written.
    NoMemory,
    /// The words are none of the forms.
    Usage,
    /// The input has more than 1,048,576 bytes.
    TooLong,
    /// The input is no TOML document.
    NotToml,
    /// The document has a fault; this is the first one.
    BadDocument(DocFault),
    /// The lanes and the document's trace differ; this is where they differ first.
    Mismatch(Mismatch),
}

impl Status {
    /// The exit status.
    pub fn number(&self) -> u8
        ensures { result ≡ number_of self.now }
    {
        match self {
            Status::Done => 0,
            Status::ReadFault => 1,
            Status::WriteFault => 2,
            Status::NoMemory => 3,
            Status::Usage => 4,
            Status::TooLong => 5,
            Status::NotToml => 6,
            Status::BadDocument(_) => 7,
            Status::Mismatch(_) => 8,
        }
    }
}

/// Writes what is said of a status, without a newline; nothing of `Done`. `out` is empty, and every text fits.
pub fn fault_text(status: &Status, out: &mut Line)
    requires { out.old.bytes ≡ [] }
    ensures { out.new.bytes ≡ fault_text_of status.now }
{
    match status {
        Status::Done => {}
        Status::ReadFault => out.push_str("ep_program: read fault"),
        Status::WriteFault => out.push_str("ep_program: write fault"),
        Status::NoMemory => out.push_str("ep_program: no memory"),
        Status::Usage => {
            out.push_str(
                "ep_program: usage: run / run trace / replay / load SEED COUNT / check / inventory",
            )
        }
        Status::TooLong => out.push_str("ep_program: input longer than 1048576 bytes"),
        Status::NotToml => out.push_str("ep_program: not a TOML document"),
        Status::BadDocument(fault) => document_fault(fault, out),
        Status::Mismatch(mismatch) => mismatch_text(mismatch, out),
    }
}
