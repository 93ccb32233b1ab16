//! Tables of scripts and of their steps.
ghost use Rattle.std.specs.Prelude.{◌≡◌, ◌+◌, ◌*◌, ◌≤◌, length, option_map};
ghost use Rattle.toml.specs.View.{view};
ghost use Rattle.hex.specs.Hex.{decode_of};
ghost use Rattle.ep_base.specs.Cards.Apdu.{is_command};
ghost use Rattle.doc_table.specs.Read.{Gives, GivesIfRoom, bytes_that, spelled};
ghost use Rattle.doc_table.specs.Section.{place};
ghost use Rattle.scenario.specs.Scripts.{step_at, script_at};

use crate::outcome::OutcomeText;
use apdu::{Command, SUCCESS};
use doc_table::{DocFault, DocKind, ListOf, Path, Read, Section, TableEnd, sized};
use ep_base::{COMMAND, STEPS};
use kernel_port::{Outcome, OutcomeKind, Script, Step};
use std::alloc::Global;
use toml::Value;

const STEP_KEYS: [&str; 3] = ["send", "want", "other"];

const SCRIPT_KEYS: [&str; 3] = ["kernel", "steps", "outcome"];

// Reads a command.
#[derive(Clone, Copy, Debug)]
struct CommandText;

impl Read for CommandText {
    ghost use Rattle.std.specs.Prelude.{ℕ, List};

    type Out = Command;

    ghost Meaning = { List ℕ };

    ghost seen = { λ c. c };

    ghost reads = { λ _. bytes_that is_command };

    ghost room = { 0 };

    fn read(&self, _alloc: Global, path: &Path, value: &Value) -> Result<Command, TableEnd> {
        Ok(command_text(path, value)?)
    }
}

fn command_text(path: &Path, value: &Value) -> Result<Command, DocFault>
    ensures { result ≡ bytes_that is_command path.now (view value.now) }
{
    match value.as_str() {
        None => Err(path.fault(DocKind::WrongKind, 0)),
        Some(text) => match command_spelled(text) {
            Some(command) => Ok(command),
            None => Err(path.fault(DocKind::BadValue, text.len() as i64)),
        },
    }
}

fn command_spelled(text: &str) -> Option<Command>
    ensures { result ≡ spelled is_command (decode_of text.now) }
{
    let bytes = sized::<COMMAND>(text, 4, COMMAND)?;
    Command::of(bytes.as_slice()).ok()
}

/// Reads a step's table.
#[derive(Clone, Copy, Debug)]
pub struct StepTable;

impl Read for StepTable {
    ghost use Rattle.ep_rules.specs.EntryPoint.Kernel.{Step as StepData};
    ghost use Rattle.scenario.specs.Scripts.{step};

    type Out = Step;

    ghost Meaning = { StepData };

    ghost seen = { λ s. s };

    ghost reads = { λ _. step };

    ghost room = { 6 };

    fn read(&self, alloc: Global, path: &Path, value: &Value) -> Result<Step, TableEnd> {
        let section = Section::of_value(path, value, &STEP_KEYS)?;
        step_at(alloc, &section)
    }
}

#[tactic(auto, unfolding(crate::specs::Scripts::step_at))]
fn step_at(alloc: Global, section: &Section) -> Result<Step, TableEnd>
    requires { length section.now.path.now + 6 ≤ 96 }
    ensures { GivesIfRoom (λ s. s) result (step_at (place section.now)) }
{
    let send = section.required(alloc, "send", &CommandText)?;
    let want = section.array::<2>("want")?.unwrap_or(SUCCESS.to_be_bytes());
    let other = section.defaulted(alloc, "other", &OutcomeText, END)?;
    Ok(Step {
        send,
        want: u16::from_be_bytes(want),
        other,
    })
}

const END: Outcome = Outcome {
    kind: OutcomeKind::EndApplication,
    message: None,
};

/// Reads a script's table.
#[derive(Clone, Copy, Debug)]
pub struct ScriptTable;

impl Read for ScriptTable {
    ghost use Rattle.ep_rules.specs.EntryPoint.Kernel.{Script as ScriptData};
    ghost use Rattle.scenario.specs.Scripts.{script};

    type Out = Script;

    ghost Meaning = { ScriptData };

    ghost seen = { λ s. s };

    ghost reads = { λ _. script };

    ghost room = { 19 };

    fn read(&self, alloc: Global, path: &Path, value: &Value) -> Result<Script, TableEnd> {
        let section = Section::of_value(path, value, &SCRIPT_KEYS)?;
        script_at(alloc, &section)
    }
}

#[tactic(auto, unfolding(crate::specs::Scripts::script_at))]
fn script_at(alloc: Global, section: &Section) -> Result<Script, TableEnd>
    requires { length section.now.path.now + 19 ≤ 96 }
    ensures { GivesIfRoom (λ s. s) result (script_at (place section.now)) }
{
    let kernel = section.required_integer("kernel", 1, 16_777_215)?;
    let steps = ListOf::tables(0, STEPS, StepTable);
    let steps = section.defaulted(alloc, "steps", &steps, Vec::new(alloc))?;
    let outcome = section.required(alloc, "outcome", &OutcomeText)?;
    Ok(Script {
        kernel: kernel as u32,
        steps,
        outcome,
    })
}
