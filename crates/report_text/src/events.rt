//! The events, each written after the numbers of lane and transaction.
ghost use Rattle.std.specs.Prelude.{◌≡◌, ◌≤◌, ◌<◌, ◌+◌, ◌++◌, ◌∷◌, [], length, codes, decimal, not, Some, None};
ghost use Rattle.ep_claim.specs.Text.ReportLine.{card_word, hex, kind_word, message_row, truth, ttq_text};

use crate::pieces::{push_truth, push_ttq};
use crate::words::{card_word, identifier, kind_word, message_words};
use ep_base::{COMMAND, CardKind, LINE_BYTES, Line, Message, OutcomeKind, RESPONSE};
use trace_io::{push_hex, push_number};

/// A transaction starts.
pub(crate) fn push_start(txn_type: u8, amount: u64, out: &mut Line)
    requires { length out.old.bytes ≤ 50 }
    ensures text { out.new.bytes ≡ out.old.bytes ++ (codes "start type=" ++ hex (txn_type ∷ []) ++ codes " amount=" ++ decimal amount) }
    ensures most { length out.new.bytes < LINE_BYTES }
{
    out.push_str("start type=");
    push_hex(&[txn_type], out);
    out.push_str(" amount=");
    push_number(amount, out);
}

/// A message is given.
pub(crate) fn push_message(message: Message, out: &mut Line)
    requires { length out.old.bytes ≤ 50 }
    ensures text { out.new.bytes ≡ out.old.bytes ++ (codes "message " ++ hex ((message_row message).identifier ∷ []) ++ codes " " ++ (message_row message).words) }
    ensures most { length out.new.bytes < LINE_BYTES }
{
    out.push_str("message ");
    push_hex(&[identifier(message)], out);
    out.push_str(" ");
    out.push_str(message_words(message));
}

/// A card was found.
pub(crate) fn push_card(kind: CardKind, id: &[u8], out: &mut Line)
    requires few { length id.now ≤ 10 }
    requires begun { length out.old.bytes ≤ 50 }
    ensures text { out.new.bytes ≡ out.old.bytes ++ (codes "card " ++ card_word kind ++ codes " " ++ hex id.now) }
    ensures most { length out.new.bytes < LINE_BYTES }
{
    out.push_str("card ");
    out.push_str(card_word(kind));
    out.push_str(" ");
    push_hex(id, out);
}

/// A command was answered.
pub(crate) fn push_apdu(command: &[u8], response: &[u8], out: &mut Line)
    requires command { length command.now ≤ COMMAND }
    requires response { length response.now ≤ RESPONSE }
    requires begun { length out.old.bytes ≤ 50 }
    ensures text { out.new.bytes ≡ out.old.bytes ++ (codes "apdu " ++ hex command.now ++ codes " " ++ hex response.now) }
    ensures most { length out.new.bytes < LINE_BYTES }
{
    out.push_str("apdu ");
    push_hex(command, out);
    out.push_str(" ");
    push_hex(response, out);
}

/// So many candidates were found.
pub(crate) fn push_candidates(count: u16, out: &mut Line)
    requires { length out.old.bytes ≤ 50 }
    ensures text { out.new.bytes ≡ out.old.bytes ++ (codes "candidates " ++ decimal count) }
    ensures most { length out.new.bytes < LINE_BYTES }
{
    out.push_str("candidates ");
    push_number(u64::from(count), out);
}

/// A kernel decided.
pub(crate) fn push_outcome(kind: OutcomeKind, out: &mut Line)
    requires { length out.old.bytes ≤ 50 }
    ensures text { out.new.bytes ≡ out.old.bytes ++ (codes "outcome " ++ kind_word kind) }
    ensures most { length out.new.bytes < LINE_BYTES }
{
    out.push_str("outcome ");
    out.push_str(kind_word(kind));
}
