//! The lines.
ghost use Rattle.std.specs.Prelude.{◌≡◌, ◌≤◌, ◌<◌, ◌++◌, [], length};
ghost use Rattle.ep_claim.specs.Text.ReportLine.{line_of, said_text};
ghost use Rattle.kernel_port.specs.Event.{said_of, said_of_end};

use crate::activated::push_activation;
use crate::events::{
    push_apdu, push_candidates, push_card, push_message, push_outcome, push_start,
};
use crate::pieces::push_prefix;
use crate::prepared::push_prepared;
use ep_base::{LINE_BYTES, Line};
use kernel_port::{End, Event};

/// Writes the line of an event of a lane's transaction, with its newline. Lanes are numbered from 1, and so are the
/// transactions of a lane. `out` is empty, and every line fits.
#[tactic(auto, unfolding(ep_claim::specs::Text::ReportLine::line_of))]
pub fn line_of(lane: u8, txn: u8, event: &Event, out: &mut Line)
    requires { out.old.bytes ≡ [] }
    ensures { out.new.bytes ≡ line_of lane txn (said_of event.now) }
{
    push_prefix(lane, txn, out);
    push_event(event, out);
    out.push_str("\n");
}

// What is said, after the numbers of lane and transaction.
fn push_event(event: &Event, out: &mut Line)
    requires { length out.old.bytes ≤ 50 }
    ensures text { out.new.bytes ≡ out.old.bytes ++ said_text (said_of event.now) }
    ensures most { length out.new.bytes < LINE_BYTES }
{
    match event {
        Event::Start { txn_type, amount } => push_start(*txn_type, *amount, out),
        Event::Pre { number, one } => push_prepared(*number, one, out),
        Event::Message(message) => push_message(*message, out),
        Event::Card { kind, id } => push_card(*kind, id.as_slice(), out),
        Event::Apdu { command, response } => push_apdu(command.bytes(), response.bytes(), out),
        Event::Candidates(count) => push_candidates(*count, out),
        Event::Activate(activation) => push_activation(activation, out),
        Event::Outcome(kind) => push_outcome(*kind, out),
        Event::End(end) => push_end(*end, out),
    }
}

// The transaction has ended.
fn push_end(end: End, out: &mut Line)
    requires { length out.old.bytes ≤ 50 }
    ensures text { out.new.bytes ≡ out.old.bytes ++ said_text (said_of_end end) }
    ensures most { length out.new.bytes < LINE_BYTES }
{
    out.push_str(match end {
        End::Done => "end done",
        End::Link => "end link",
        End::NoCard => "end nocard",
        End::Breach => "end breach",
    });
}
