//! The reading of a list of objects, and the walk over it.
ghost use Rattle.std.specs.Prelude.{◌≡◌, ℕ, length, IfOk, IfErr, OnErr, IsSomeAnd, Ok, Err, None, List};
ghost use Rattle.ep_base.specs.Objects.Forest.{Reads, BreaksAt, IsForest, spelling, nodes};
ghost use Rattle.ep_base.specs.Objects.Reading.{forest_of};
ghost use Rattle.ep_base.specs.declared.objects.Node.{Node};
ghost use Rattle.ep_base.specs.declared.objects.TlvFault.{TlvFault};
ghost use Rattle.tlv_core.specs.Nodes.{GivesFirst, AllWithin};

use crate::cursor::{Cursor, check};
use ep_base::{Node, TlvFault};
use std::marker::Model;

/// A walk over a list of objects, seen as the nodes that are left, in preorder: each object comes before those in it.
#[derive(Drop)]
pub struct Walk<'a> {
    bytes: &'a [u8],
    cursor: Cursor,
}

impl<'a> Model for Walk<'a> {
    ghost use Rattle.std.specs.Prelude.{List};
    ghost use Rattle.ep_base.specs.declared.objects.Node.{Node};

    ghost Value = { List Node };

    ghost use Rattle.tlv_core.specs.WalkState.{nodes_left, IsWalk};

    ghost view = { nodes_left };

    ghost invariant = { IsWalk };
}

/// Reads all of the bytes as a list of objects, and gives the walk over it (ISO/IEC 8825-1).
///
/// Bytes 00 between objects, and before and after them, are skipped. A length may be longer than it need be.
///
/// Errors: the first fault, with the place of the first tag byte of the object that fails, counted from 0.
pub fn read(bytes: &[u8]) -> Result<Walk<'_>, (TlvFault, usize)>
    // What is read is a list of objects, and the walk has its nodes.
    ensures found { IfOk result (λ walk. Reads bytes.now walk) }
    // The value of each node lies in the bytes.
    ensures within { IfOk result (λ walk. AllWithin walk (length bytes.now)) }
    // A fault is where the bytes break off.
    ensures fault { IfErr result (λ e. BreaksAt bytes.now e.0 e.1) }
    // A list of objects is read, and has no other nodes.
    ensures accepts { (nodes : List Node) → Reads bytes.now nodes → result ≡ Ok nodes }
    // Bytes that break off are refused, and have no other fault.
    ensures refuses { (fault : TlvFault) (at : ℕ) → BreaksAt bytes.now fault at → result ≡ Err (fault, at) }
    // The same by the function that gives the list of objects.
    ensures some { IfOk result (λ walk. IsSomeAnd (forest_of bytes.now) (λ f. IsForest 0 f × (bytes.now ≡ spelling f) × (walk ≡ nodes 0 0 f))) }
    ensures none { OnErr result (forest_of bytes.now ≡ None) }
{
    check(bytes)?;
    Ok(Walk {
        bytes,
        cursor: Cursor::new(bytes),
    })
}

impl Walk<'_> {
    /// The next node, or None at the end and ever after.
    pub fn next(&mut self) -> Option<Node>
        ensures { GivesFirst result self.old self.new }
    {
        match self.cursor.advance(self.bytes) {
            Ok(node) => node,
            Err(_) => unreachable!(),
        }
    }
}
