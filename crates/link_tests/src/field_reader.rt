//! A reader at a field.

use link::RfTransport;
use rf_field::Field;

/// A reader at a field of a document's cards, with its link to the card that is presented, if there is one.
#[derive(Drop)]
pub struct FieldReader {
    pub(crate) transport: RfTransport<Field>,
}
