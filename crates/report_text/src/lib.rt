//! The report, line by line: each event of a transaction and each record of a card's log has one line, and each fault of
//! a document one text (this project's own formats).
#![tactic(auto)]

mod activated;
mod events;
mod fault;
mod line;
mod pieces;
mod prepared;
mod record;
mod words;

pub use fault::document_fault;
pub use line::line_of;
pub use record::log_line;
