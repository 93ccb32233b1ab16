//! The inventory of the Type A cards of each transaction of a document: the fields that answer bit by bit, and the lines,
//! which are pushed to a sink (this project's own).
#![tactic(auto)]

mod fields;
mod run;
mod tags;
mod text;
mod writing;

pub use run::{ListingEnd, inventory_lanes};
pub use text::{inventory_line, tag_line};
