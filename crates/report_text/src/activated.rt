//! What a kernel is given.
ghost use Rattle.std.specs.Prelude.{◌≡◌, ◌≤◌, ◌<◌, ◌+◌, ◌++◌, length, codes, decimal};
ghost use Rattle.ep_claim.specs.Text.ReportLine.{activate_text, hex, ttq_text};

use crate::pieces::push_ttq;
use ep_base::{LINE_BYTES, Line};
use kernel_port::Activation;
use trace_io::{push_hex, push_number};

/// A kernel is activated.
pub(crate) fn push_activation(activation: &Activation, out: &mut Line)
    requires { length out.old.bytes ≤ 50 }
    ensures text { out.new.bytes ≡ out.old.bytes ++ activate_text activation.now }
    ensures most { length out.new.bytes < LINE_BYTES }
{
    push_kernel(activation.kernel, activation.combination, out);
    push_selected(activation.name.as_slice(), &activation.ttq, out);
    out.push_str(" fci=");
    push_hex(activation.fci.as_slice(), out);
}

// The kernel's number, and the Combination's.
fn push_kernel(kernel: u32, combination: u8, out: &mut Line)
    requires { length out.old.bytes ≤ 50 }
    ensures text { out.new.bytes ≡ out.old.bytes ++ (codes "activate " ++ decimal kernel ++ codes " combination=" ++ decimal combination) }
    ensures most { length out.new.bytes ≤ 120 }
{
    out.push_str("activate ");
    push_number(u64::from(kernel), out);
    out.push_str(" combination=");
    push_number(u64::from(combination), out);
}

// The name that was selected, and the TTQ.
fn push_selected(name: &[u8], ttq: &Option<[u8; 4]>, out: &mut Line)
    requires few { length name.now ≤ 16 }
    requires begun { length out.old.bytes ≤ 120 }
    ensures text { out.new.bytes ≡ out.old.bytes ++ (codes " name=" ++ hex name.now ++ codes " ttq=" ++ ttq_text ttq.now) }
    ensures most { length out.new.bytes ≤ 180 }
{
    out.push_str(" name=");
    push_hex(name, out);
    out.push_str(" ttq=");
    push_ttq(ttq, out);
}
