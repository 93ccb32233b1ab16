//! Outcome texts.
ghost use Rattle.std.specs.Prelude.{◌≡◌, ◌==◌, option_map};
ghost use Rattle.toml.specs.View.{view};
ghost use Rattle.hex.specs.Hex.{decode_of};
ghost use Rattle.doc_table.specs.Read.{Gives};
ghost use Rattle.scenario.specs.Outcomes.{kind_named, message_numbered, message_spelled, outcome_named, outcome_text};
ghost use Rattle.kernel_port.specs.Outcome.{verdict_of};

use doc_table::{DocFault, DocKind, Path, Read, TableEnd, sized};
use kernel_port::{Message, Outcome, OutcomeKind};
use std::alloc::Global;
use toml::Value;

/// Reads an outcome text.
#[derive(Clone, Copy, Debug)]
pub struct OutcomeText;

impl Read for OutcomeText {
    ghost use Rattle.ep_rules.specs.EntryPoint.Event.{Verdict};

    type Out = Outcome;

    ghost Meaning = { Verdict };

    ghost seen = { verdict_of };

    ghost reads = { λ _. outcome_text };

    ghost room = { 0 };

    fn read(&self, _alloc: Global, path: &Path, value: &Value) -> Result<Outcome, TableEnd> {
        Ok(outcome_text(path, value)?)
    }
}

fn outcome_text(path: &Path, value: &Value) -> Result<Outcome, DocFault>
    ensures { Gives verdict_of result (outcome_text path.now (view value.now)) }
{
    match value.as_str() {
        None => Err(path.fault(DocKind::WrongKind, 0)),
        Some(text) => match outcome_named(text) {
            Some(outcome) => Ok(outcome),
            None => Err(path.fault(DocKind::BadValue, text.len() as i64)),
        },
    }
}

// The outcome that a text names.
fn outcome_named(text: &str) -> Option<Outcome>
    ensures { option_map verdict_of result ≡ outcome_named text.now }
{
    match text.split_once(' ') {
        None => {
            let kind = kind_named(text)?;
            Some(Outcome {
                kind,
                message: None,
            })
        }
        Some((word, digits)) => {
            let kind = kind_named(word)?;
            let message = message_spelled(digits)?;
            Some(Outcome {
                kind,
                message: Some(message),
            })
        }
    }
}

fn kind_named(word: &str) -> Option<OutcomeKind>
    ensures { result ≡ kind_named word.now }
{
    match word {
        "select-next" => Some(OutcomeKind::SelectNext),
        "try-again" => Some(OutcomeKind::TryAgain),
        "approved" => Some(OutcomeKind::Approved),
        "declined" => Some(OutcomeKind::Declined),
        "online" => Some(OutcomeKind::OnlineRequest),
        "try-another" => Some(OutcomeKind::TryAnother),
        "end" => Some(OutcomeKind::EndApplication),
        _ => None,
    }
}

fn message_spelled(digits: &str) -> Option<Message>
    ensures { result ≡ message_spelled (decode_of digits.now) }
{
    let byte = sized::<1>(digits, 1, 1)?;
    message_numbered(byte[0])
}

fn message_numbered(identifier: u8) -> Option<Message>
    ensures { result ≡ message_numbered identifier }
{
    match identifier {
        0x03 => Some(Message::Approved),
        0x07 => Some(Message::NotAuthorised),
        0x15 => Some(Message::PresentCard),
        0x16 => Some(Message::Processing),
        0x17 => Some(Message::ReadOk),
        0x18 => Some(Message::InsertOrSwipe),
        0x19 => Some(Message::OneCardOnly),
        0x1c => Some(Message::TryAnotherCard),
        0x21 => Some(Message::PresentAgain),
        _ => None,
    }
}
