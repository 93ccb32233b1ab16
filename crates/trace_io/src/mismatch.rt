//! Where a run and a trace differ.
ghost use Rattle.std.specs.Prelude.{◌≡◌, ◌≤◌, ◌+◌, ◌*◌, ◌++◌, [], length};
ghost use Rattle.trace_io.specs.MismatchText.{mismatch_text, side_text};

use crate::line::{Shown, push_shown};
use crate::pieces::push_number;
use ep_base::{FRAME, LINE_BYTES, Line};
use std::marker::Model;

/// The first place at which a run and a trace differ.
#[derive(Debug, PartialEq, Eq, Drop)]
pub struct Mismatch {
    /// The place of the trace's line, counted from 1. It stays at the end of its type.
    pub place: u32,
    /// What the line says was sent. `None` where the trace has ended.
    pub wanted: Option<Shown>,
    /// What was sent. `None` where the run has ended.
    pub got: Option<Shown>,
}

impl Model for Mismatch {
    ghost use Rattle.ep_claim.specs.Lanes.ReplayRun.{Mismatch};

    ghost Value = { Mismatch };

    ghost view = { λ m. record { place = m.place; wanted = m.wanted; got = m.got } };

    ghost inverse = { λ m. record { place = m.place; wanted = m.wanted; got = m.got } };
}

/// Writes where a run and a trace differ first, without a newline: the place, what the trace's line wants, and what was
/// sent, each as in a trace line. `out` is empty, and every text fits.
#[tactic(auto, unfolding(crate::specs::MismatchText::mismatch_text))]
pub fn mismatch_text(mismatch: &Mismatch, out: &mut Line)
    requires { out.old.bytes ≡ [] }
    ensures { out.new.bytes ≡ mismatch_text mismatch.now }
{
    out.push_str("ep_program: mismatch at ");
    push_number(u64::from(mismatch.place), out);
    out.push_str(": wanted ");
    push_side(&mismatch.wanted, out);
    out.push_str(", got ");
    push_side(&mismatch.got, out);
}

// What was sent, or nothing.
fn push_side(side: &Option<Shown>, out: &mut Line)
    requires { length out.old.bytes + (2 * FRAME + 48) ≤ LINE_BYTES }
    ensures text { out.new.bytes ≡ out.old.bytes ++ side_text side.now }
    ensures most { length out.new.bytes ≤ length out.old.bytes + (2 * FRAME + 48) }
{
    match side {
        Some(sent) => push_shown(sent, out),
        None => out.push_str("nothing"),
    }
}
