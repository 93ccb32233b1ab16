//! The pieces of a line. Each is pushed at its end.
ghost use Rattle.std.specs.Prelude.{◌≡◌, ◌≤◌, ◌+◌, ◌*◌, ◌++◌, length, codes, decimal};
ghost use Rattle.ep_claim.specs.Text.ReportLine.{hex, prefix, truth, ttq_text};

use ep_base::{LINE_BYTES, Line};
use trace_io::{push_hex, push_number};

/// A truth as 0 or 1.
pub(crate) fn push_truth(value: bool, out: &mut Line)
    requires { length out.old.bytes + 1 ≤ LINE_BYTES }
    ensures text { out.new.bytes ≡ out.old.bytes ++ truth value }
    ensures most { length out.new.bytes ≤ length out.old.bytes + 1 }
{
    out.push_str(if value { "1" } else { "0" });
}

/// A TTQ, where there is one.
pub(crate) fn push_ttq(ttq: &Option<[u8; 4]>, out: &mut Line)
    requires { length out.old.bytes + 8 ≤ LINE_BYTES }
    ensures text { out.new.bytes ≡ out.old.bytes ++ ttq_text ttq.now }
    ensures most { length out.new.bytes ≤ length out.old.bytes + 8 }
{
    match ttq {
        Some(ttq) => push_hex(ttq, out),
        None => out.push_str("-"),
    }
}

/// The numbers of lane and transaction.
pub(crate) fn push_prefix(lane: u8, txn: u8, out: &mut Line)
    requires { length out.old.bytes + 42 ≤ LINE_BYTES }
    ensures text { out.new.bytes ≡ out.old.bytes ++ prefix lane txn }
    ensures most { length out.new.bytes ≤ length out.old.bytes + 42 }
{
    push_number(u64::from(lane), out);
    out.push_str(".");
    push_number(u64::from(txn), out);
    out.push_str(" ");
}
