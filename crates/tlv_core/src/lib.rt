//! BER-TLV objects: bytes are read whole as a list of objects, and then walked.
//!
//! The grammar is `ep_base/specs/Objects/Forest.antt`: a list of objects is a value that is spelled in one way, and `read`
//! accepts exactly what is so spelled.
#![tactic(auto)]

mod cursor;
mod head;
mod laws;
mod walk;
mod writer;

pub use ep_base::{Node, TlvFault};
pub use laws::{one_reading, written_again};
pub use walk::{Walk, read};
pub use writer::{write_length, write_tag};
