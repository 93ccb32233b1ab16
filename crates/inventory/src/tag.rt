//! What an inventory tells of a card.

use ep_base::Buf;
use std::marker::Model;

/// A card of Type A: its UID of 4, 7 or 10 bytes, and the SAK with which it answers the selection of its last level.
#[derive(Debug, PartialEq, Eq, Drop)]
pub struct Tag {
    /// Its UID.
    pub uid: Buf<10>,
    /// Its SAK.
    pub sak: u8,
}

impl Model for Tag {
    ghost use Rattle.inventory.specs.Tags.{Tag};

    ghost Value = { Tag };

    ghost view = { λ t. record { uid = t.uid.items; sak = t.sak } };

    ghost inverse = { λ t. record { uid = record { items = t.uid }; sak = t.sak } };
}

impl Default for Tag {
    fn default() -> Tag {
        Tag {
            uid: Buf::<10>::new(),
            sak: 0,
        }
    }
}
