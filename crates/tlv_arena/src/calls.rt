//! Calls of an arena as values, and a list of them made in order.
ghost use Rattle.std.specs.Prelude.{◌≡◌};
ghost use Rattle.ep_base.specs.Objects.Arena as kept;
ghost use Rattle.tlv_arena.specs.Calls.{call_of, calls_of};

use crate::{Arena, ObjId};

/// A call that may change an arena.
pub enum ArenaCall<'a> {
    /// `put`.
    Put {
        group: u16,
        tag: u32,
        value: &'a [u8],
    },
    /// `replace`.
    Replace {
        id: ObjId,
        value: &'a [u8],
    },
    /// `remove`.
    Remove {
        id: ObjId,
    },
    /// `drop_group`.
    DropGroup {
        group: u16,
    },
    /// `clear`.
    Clear,
    /// `relocate`.
    Relocate,
}

impl Arena {
    /// Makes one call, and leaves its answer out.
    fn make(&mut self, call: &ArenaCall<'_>)
        requires { kept.HasSerial (call_of call.now) self.old.contents }
        ensures { self.new.contents ≡ kept.after (call_of call.now) self.old.contents }
    {
        match call {
            ArenaCall::Put { group, tag, value } => {
                let _answer = self.put(*group, *tag, value);
            }
            ArenaCall::Replace { id, value } => {
                let _answer = self.replace(*id, value);
            }
            ArenaCall::Remove { id } => {
                let _answer = self.remove(*id);
            }
            ArenaCall::DropGroup { group } => {
                let _answer = self.drop_group(*group);
            }
            ArenaCall::Clear => self.clear(),
            ArenaCall::Relocate => self.relocate(),
        }
    }

    /// Makes the calls in order, and leaves their answers out.
    ///
    /// Whatever the calls are, what the arena then holds is what they make, one after the other, of what it held. `get`
    /// lends the value of each object that is live then.
    pub fn make_all(&mut self, calls: &[ArenaCall<'_>])
        requires { kept.HaveSerials (calls_of calls.now) self.old.contents }
        ensures { self.new.contents ≡ kept.after_calls (calls_of calls.now) self.old.contents }
    {
        for call in calls {
            self.make(call);
        }
    }
}
