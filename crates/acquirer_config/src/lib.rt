//! The acquirer's configuration.
#![tactic(auto)]

mod combination;
mod config;

pub use combination::Combination;
pub use config::Config;
pub use doc_table::{DocFault, DocKind, TableEnd as ConfigEnd};
