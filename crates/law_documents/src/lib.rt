//! Laws of a document that is accepted, each the contract of a function that does nothing.
//!
//! What a document means is defined in `scenario`, and what is made of bytes in `law_lines`; `specs/` states the laws.
#![tactic(auto)]

ghost use Rattle.law_documents.specs.Meant.{DocumentsAreOfBytes};
ghost use Rattle.law_documents.specs.Traced.{TracesAreEntered, WrittenTracesAreRead};

/// Every transaction of a document that is accepted is made of bytes: its cards, and the commands that Entry Point and its
/// kernels send, whatever responses of bytes come.
pub fn documents_are_of_bytes()
    ensures { DocumentsAreOfBytes }
{}

/// A document that is accepted takes the trace lines that a run wrote: with their texts at its key `trace` it means the same,
/// and their exchanges are its trace.
pub fn written_traces_are_read()
    ensures { WrittenTracesAreRead }
{}

/// A document with these texts at its key `trace` has there an array of them, and at every other key what it had; its keys
/// are in byte order where they were.
pub fn traces_are_entered()
    ensures { TracesAreEntered }
{}
