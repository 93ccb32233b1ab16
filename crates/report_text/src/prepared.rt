//! What Pre-Processing found of a Combination.
ghost use Rattle.std.specs.Prelude.{◌≡◌, ◌≤◌, ◌<◌, ◌+◌, ◌++◌, length, codes, decimal, not};
ghost use Rattle.ep_claim.specs.Text.ReportLine.{hex, pre_text, truth};

use crate::pieces::{push_truth, push_ttq};
use acquirer_config::Combination;
use ep_base::{LINE_BYTES, Line};
use pre_processing::{Indicators, PreparedOne};
use trace_io::{push_hex, push_number};

/// What was found of the Combination of this number.
pub(crate) fn push_prepared(number: u8, one: &PreparedOne, out: &mut Line)
    requires { length out.old.bytes ≤ 50 }
    ensures text { out.new.bytes ≡ out.old.bytes ++ pre_text number one.now }
    ensures most { length out.new.bytes < LINE_BYTES }
{
    out.push_str("pre ");
    push_number(u64::from(number), out);
    push_combination(&one.combination, out);
    push_indicators(&one.indicators, out);
    out.push_str(" ttq=");
    push_ttq(&one.ttq, out);
}

// What the Combination accepts, and its kernel.
fn push_combination(combination: &Combination, out: &mut Line)
    requires { length out.old.bytes + 70 ≤ LINE_BYTES }
    ensures text { out.new.bytes ≡ out.old.bytes ++ (codes " aid=" ++ hex combination.now.aid ++ codes " kernel=" ++ decimal combination.now.kernel) }
    ensures most { length out.new.bytes ≤ length out.old.bytes + 70 }
{
    out.push_str(" aid=");
    push_hex(combination.aid.as_slice(), out);
    out.push_str(" kernel=");
    push_number(u64::from(combination.kernel), out);
}

// The five truths.
fn push_indicators(found: &Indicators, out: &mut Line)
    requires { length out.old.bytes + 50 ≤ LINE_BYTES }
    ensures text { out.new.bytes ≡ out.old.bytes
        ++ (codes " allowed=" ++ truth (not found.now.not_allowed)
        ++ codes " status=" ++ truth found.now.status
        ++ codes " zero=" ++ truth found.now.zero
        ++ codes " floor=" ++ truth found.now.floor
        ++ codes " cvm=" ++ truth found.now.cvm) }
    ensures most { length out.new.bytes ≤ length out.old.bytes + 50 }
{
    out.push_str(" allowed=");
    push_truth(!found.not_allowed, out);
    out.push_str(" status=");
    push_truth(found.status, out);
    out.push_str(" zero=");
    push_truth(found.zero, out);
    out.push_str(" floor=");
    push_truth(found.floor, out);
    out.push_str(" cvm=");
    push_truth(found.cvm, out);
}
