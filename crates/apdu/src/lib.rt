//! Commands and responses of a card (ISO/IEC 7816-4 in the short form, as EMV uses it).
#![tactic(auto)]

mod command;
mod fault;
mod response;

pub use command::{Command, PPSE_NAME};
pub use fault::ApduFault;
pub use response::{Response, SUCCESS};
