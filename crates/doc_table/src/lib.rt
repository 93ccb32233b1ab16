//! Tables of keys, read from a TOML document with the first fault.
#![tactic(auto)]

mod fault;
mod list;
mod order;
mod path;
mod reader;
mod section;
mod value;

pub use fault::{DocFault, DocKind, TableEnd};
pub use list::{ElementKind, all_of, counted, items_of_kind};
pub use order::in_byte_order;
pub use path::Path;
pub use reader::{ListOf, Read, each};
pub use section::Section;
pub use value::{byte_text, integer_in, sized, table_in, truth};
