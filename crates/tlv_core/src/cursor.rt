//! A place among objects, and the steps that it takes.
ghost use Rattle.std.specs.Prelude.{◌≡◌, ◌<◌, ◌≤◌, length, ℕ, Option, Some, None, OnOk, IfErr, [], ◌∷◌};
ghost use Rattle.std.specs.Bool.{MatchBool};
ghost use Rattle.tlv_core.specs.Scan.{reading, fault_of};

use crate::head::head_of;
use ep_base::{Node, TlvFault};

/// What may stand between objects.
const PADDING: u8 = 0;

/// A place among objects, with the end of the object around it and the ends of those around that, the outermost first.
#[derive(Clone, Copy)]
pub(crate) struct Cursor {
    pub(crate) at: usize,
    pub(crate) end: usize,
    pub(crate) ends: [usize; 8],
    pub(crate) depth: u8,
}

impl Cursor {
    ghost use Rattle.tlv_core.specs.CursorState.{IsCursor, left_at, Takes, Stands, skips_left};

    pub(crate) fn new(bytes: &[u8]) -> Cursor
        ensures cursor { IsCursor bytes.now result }
        ensures left { left_at bytes.now result ≡ reading 0 (bytes.now ∷ []) }
    {
        Cursor {
            at: 0,
            end: bytes.len(),
            ends: [0; 8],
            depth: 0,
        }
    }

    /// Leaves an object that has ended, or skips a byte 00 between objects.
    fn skip_one(&mut self, bytes: &[u8]) -> bool
        requires { IsCursor bytes.now self.old }
        ensures cursor { IsCursor bytes.now self.new }
        ensures left { left_at bytes.now self.new ≡ left_at bytes.now self.old }
        ensures moved { MatchBool result (skips_left bytes.now self.new < skips_left bytes.now self.old) (Stands bytes.now self.new) }
    {
        if self.at == self.end {
            if self.depth == 0 {
                return false;
            }
            self.depth -= 1;
            self.end = self.ends[self.depth as usize];
            return true;
        }
        if bytes[self.at] == PADDING {
            self.at += 1;
            return true;
        }
        false
    }

    /// The next node, and the cursor behind its length, or behind its value where it is primitive.
    pub(crate) fn advance(&mut self, bytes: &[u8]) -> Result<Option<Node>, (TlvFault, usize)>
        requires { IsCursor bytes.now self.old }
        ensures cursor { IsCursor bytes.now self.new }
        ensures takes { Takes result (left_at bytes.now self.old) (left_at bytes.now self.new) }
    {
        while self.skip_one(bytes) {}
        if self.at == self.end {
            return Ok(None);
        }
        let head = match head_of(&bytes[self.at..self.end], self.depth) {
            Ok(head) => head,
            Err(fault) => return Err((fault, self.at)),
        };
        let node = Node {
            depth: self.depth,
            tag: head.tag,
            constructed: head.constructed,
            at: self.at + head.size,
            len: head.len,
        };
        if head.constructed {
            self.ends[self.depth as usize] = self.end;
            self.depth += 1;
            self.at = node.at;
            self.end = node.at + node.len;
            return Ok(Some(node));
        }
        self.at = node.at + node.len;
        Ok(Some(node))
    }
}

/// Reads all of the bytes for their first fault.
pub(crate) fn check(bytes: &[u8]) -> Result<(), (TlvFault, usize)>
    ensures good { OnOk result (fault_of (reading 0 (bytes.now ∷ [])) ≡ None) }
    ensures fault { IfErr result (λ e. fault_of (reading 0 (bytes.now ∷ [])) ≡ Some e) }
{
    let mut cursor = Cursor::new(bytes);
    while let Some(_) = cursor.advance(bytes)? {}
    Ok(())
}
