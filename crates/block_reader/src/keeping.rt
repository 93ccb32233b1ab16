//! The exchanges that a reader's end keeps.
ghost use Rattle.std.specs.Prelude.{◌≡◌, ◌<◌, ◌+◌, ◌++◌, [], ◌∷◌};
ghost use Rattle.arrayvec.specs.ArrayVec.{array_vec_len};
ghost use Rattle.ep_base.specs.Link.LinkFrames.{block_frame};
ghost use Rattle.rf_frame.specs.Meaning.{heard_of};
ghost use Rattle.block_reader.specs.Counts.{IsLawful};
ghost use Rattle.block_reader.specs.Progress.{block_from, carried, course};

use crate::Kept;
use crate::asking::put_frame;
use crate::progress::Progress;
use crate::stages::Question;
use arrayvec::ArrayVec;
use ep_base::{BETWEEN_TOGGLES, CardKind, FrameBuf};
use rf_frame::Heard;

impl Progress {
    /// Keeps one more exchange: the frame of a question's block, and what was heard.
    #[inline(never)]
    pub(crate) fn keep(
        &self,
        question: Question,
        kind: CardKind,
        heard: &Heard,
        since: &mut ArrayVec<Kept, BETWEEN_TOGGLES>,
    )
        requires lawful { IsLawful question }
        requires room { array_vec_len since.old < BETWEEN_TOGGLES }
        ensures items { since.new.items ≡ since.old.items ++ record { sent = (block_frame kind (block_from question (carried (course self.now)))).bytes; heard = heard_of heard.now } ∷ [] }
        ensures len { array_vec_len since.new ≡ array_vec_len since.old + 1 }
    {
        let mut sent = FrameBuf::new();
        put_frame(kind, &self.block_for(question), &mut sent);
        since.push(Kept {
            sent,
            heard: heard.copy(),
        });
    }
}

/// Keeps no exchange from now on. This costs nothing where none is kept.
pub(crate) fn forget(since: &mut ArrayVec<Kept, BETWEEN_TOGGLES>)
    ensures none { since.new.items ≡ [] }
{
    if !since.is_empty() {
        since.clear();
    }
}
