//! The document of a run: tables of keys, read from TOML bytes with the first fault.
#![tactic(auto)]

mod document;
mod job;
mod outcome;
mod scenario;
mod script;
mod transaction;
mod turns;

pub use acquirer_config::{Config, DocFault, DocKind};
pub use document::Document;
pub use job::Job;
pub use kernel_port::Scripts;
pub use rf_field::Field;
pub use scenario::{DocEnd, Scenario};
pub use trace_io::TraceLine;
pub use transaction::Transaction;
