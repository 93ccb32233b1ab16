//! Both ends of a link together, under fates: a reader's end that carries commands and a card alone in the field, and a
//! reader that presents, carries commands and closes at a field of several cards. It shows the promises of `link` at a
//! real wire and a real field, and its tests are whole links with lost frames.
#![tactic(auto)]

mod field_reader;
mod open_link;
mod presenting;

pub use field_reader::FieldReader;
pub use open_link::OpenLink;
