//! The line of a record of a card's log.
ghost use Rattle.std.specs.Prelude.{◌≡◌, ◌≤◌, ◌<◌, ◌++◌, [], length, codes, decimal};
ghost use Rattle.ep_claim.specs.Text.ReportLine.{hex, log_line};

use crate::pieces::push_prefix;
use card_image::Record;
use ep_base::{COMMAND, LINE_BYTES, Line};
use trace_io::{push_hex, push_number};

/// Writes the line of a record of a log, with its newline: the numbers of lane and transaction, then the card's number
/// and the command that it executed. `out` is empty, and every line fits.
#[tactic(auto, unfolding(ep_claim::specs::Text::ReportLine::log_line))]
pub fn log_line(lane: u8, txn: u8, entry: &Record, out: &mut Line)
    requires { out.old.bytes ≡ [] }
    ensures { out.new.bytes ≡ log_line lane txn entry.now }
{
    push_prefix(lane, txn, out);
    push_record(entry.card, entry.command.bytes(), out);
    out.push_str("\n");
}

// A card executed a command.
fn push_record(card: u8, command: &[u8], out: &mut Line)
    requires command { length command.now ≤ COMMAND }
    requires begun { length out.old.bytes ≤ 50 }
    ensures text { out.new.bytes ≡ out.old.bytes ++ (codes "log " ++ decimal card ++ codes " " ++ hex command.now) }
    ensures most { length out.new.bytes < LINE_BYTES }
{
    out.push_str("log ");
    push_number(u64::from(card), out);
    out.push_str(" ");
    push_hex(command, out);
}
