//! Applications of a card and their rules, and their tables.
ghost use Rattle.std.specs.Prelude.{◌≡◌, ◌+◌, ◌≤◌, length};
ghost use Rattle.doc_table.specs.Read.{GivesIfRoom};
ghost use Rattle.doc_table.specs.Section.{place};
ghost use Rattle.card_table.specs.Cards.{app_at, rule_at};

use crate::codes::{extensions, multiplier};
use apdu::Response;
use card_image::{App, Rule};
use doc_table::{ListOf, Path, Read, Section, TableEnd, byte_text};
use ep_base::{ANSWERS, COMMAND, RESPONSE, RULES};
use std::alloc::Global;
use toml::Value;

const RULE_KEYS: [&str; 4] = ["prefix", "responses", "wtx", "wtxm"];

const APP_KEYS: [&str; 5] = ["name", "select", "wtx", "wtxm", "rules"];

/// Reads a response.
#[derive(Clone, Copy, Debug)]
pub struct ResponseText;

impl Read for ResponseText {
    ghost use Rattle.std.specs.Prelude.{ℕ, List};
    ghost use Rattle.card_table.specs.Cards.{response};

    type Out = Response;

    ghost Meaning = { List ℕ };

    ghost seen = { λ r. r };

    ghost reads = { λ _. response };

    ghost room = { 0 };

    fn read(&self, _alloc: Global, path: &Path, value: &Value) -> Result<Response, TableEnd> {
        let bytes = byte_text::<RESPONSE>(path, value, 2, RESPONSE)?;
        match Response::of(bytes.as_slice()) {
            Ok(response) => Ok(response),
            Err(_) => unreachable!(),
        }
    }
}

/// Reads a rule's table.
#[derive(Clone, Copy, Debug)]
pub struct RuleTable;

impl Read for RuleTable {
    ghost use Rattle.ep_base.specs.Cards.CardAnswer.{Rule as RuleData};
    ghost use Rattle.card_table.specs.Cards.{rule};

    type Out = Rule;

    ghost Meaning = { RuleData };

    ghost seen = { λ r. r };

    ghost reads = { λ _. rule };

    ghost room = { 17 };

    fn read(&self, alloc: Global, path: &Path, value: &Value) -> Result<Rule, TableEnd> {
        let section = Section::of_value(path, value, &RULE_KEYS)?;
        rule_at(alloc, &section)
    }
}

#[tactic(auto, unfolding(crate::specs::Cards::rule_at))]
fn rule_at(alloc: Global, section: &Section) -> Result<Rule, TableEnd>
    requires { length section.now.path.now + 17 ≤ 96 }
    ensures { GivesIfRoom (λ r. r) result (rule_at (place section.now)) }
{
    let prefix = section.required_bytes::<COMMAND>("prefix", 1)?;
    let responses = ListOf::texts(1, ANSWERS, ResponseText);
    let responses = section.required(alloc, "responses", &responses)?;
    let wtx = extensions(section)?;
    let wtxm = multiplier(section)?;
    Ok(Rule {
        prefix: Vec::from_slice(alloc, prefix.as_slice())?,
        responses,
        wtx,
        wtxm,
    })
}

/// Reads an application's table.
#[derive(Clone, Copy, Debug)]
pub struct AppTable;

impl Read for AppTable {
    ghost use Rattle.ep_base.specs.Cards.CardAnswer.{App as AppData};
    ghost use Rattle.card_table.specs.Cards.{app};

    type Out = App;

    ghost Meaning = { AppData };

    ghost seen = { λ a. a };

    ghost reads = { λ _. app };

    ghost room = { 30 };

    fn read(&self, alloc: Global, path: &Path, value: &Value) -> Result<App, TableEnd> {
        let section = Section::of_value(path, value, &APP_KEYS)?;
        app_at(alloc, &section)
    }
}

#[tactic(auto, unfolding(crate::specs::Cards::app_at))]
fn app_at(alloc: Global, section: &Section) -> Result<App, TableEnd>
    requires { length section.now.path.now + 30 ≤ 96 }
    ensures { GivesIfRoom (λ a. a) result (app_at (place section.now)) }
{
    let name = section.required_bytes("name", 5)?;
    let responses = ListOf::texts(1, ANSWERS, ResponseText);
    let select = section.required(alloc, "select", &responses)?;
    let wtx = extensions(section)?;
    let wtxm = multiplier(section)?;
    let rules = ListOf::tables(0, RULES, RuleTable);
    let rules = section.defaulted(alloc, "rules", &rules, Vec::new(alloc))?;
    Ok(App {
        name,
        select,
        wtx,
        wtxm,
        rules,
    })
}
