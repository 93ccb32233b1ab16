//! Applications and their rules, as they are handed in and with their counts.
ghost use Rattle.std.specs.Prelude.{◌≡◌, ◌≤◌, ◌<◌, length, position, nat_eq, IfOk, IfSome, IfNone};
ghost use Rattle.std.specs.List.{starts_with};
ghost use Rattle.ep_base.specs.Cards.CardAnswer.{IsRule, IsApp, IsAnswer, rule_answer, rule_used, app_answer, app_selected, app_executes};

use crate::answers::Answers;
use crate::image::{Answered, UNKNOWN_INSTRUCTION, plain};
use apdu::Response;
use ep_base::{Buf, NoMemory};
use std::alloc::Global;
use std::marker::Model;

/// The answers to the commands that begin with a prefix. It is seen with a count of 0.
#[derive(Drop)]
pub struct Rule {
    /// The prefix, 1 to 261 bytes.
    pub prefix: Vec<u8>,
    /// The responses, 1 to 16, given in turn and the last one again and again.
    pub responses: Vec<Response>,
    /// How many S(WTX) come before each response, at most 8.
    pub wtx: u8,
    /// The WTXM of these, 1 to 59.
    pub wtxm: u8,
}

impl Model for Rule {
    ghost use Rattle.ep_base.specs.Cards.CardAnswer.{Rule, unused};

    ghost Value = { Rule };

    ghost view = { λ r. record { prefix = r.prefix.items; responses = unused r.responses.items; wtx = r.wtx; wtxm = r.wtxm } };
}

/// An application of a card. It is seen with counts of 0.
#[derive(Drop)]
pub struct App {
    /// Its name, 5 to 16 bytes.
    pub name: Buf<16>,
    /// The responses to its SELECT, 1 to 16, given in turn and the last one again and again.
    pub select: Vec<Response>,
    /// How many S(WTX) come before each response to its SELECT, at most 8.
    pub wtx: u8,
    /// The WTXM of these, 1 to 59.
    pub wtxm: u8,
    /// The answers to other commands, at most 32 rules. The first that fits answers.
    pub rules: Vec<Rule>,
}

impl Model for App {
    ghost use Rattle.ep_base.specs.Cards.CardAnswer.{App, unused};

    ghost Value = { App };

    ghost view = { λ a. record { name = a.name.items; selects = unused a.select.items; wtx = a.wtx; wtxm = a.wtxm; rules = a.rules.items } };
}

// A rule with its count.
#[derive(Drop)]
pub(crate) struct CountedRule {
    prefix: Vec<u8>,
    responses: Answers,
    wtx: u8,
    wtxm: u8,
}

impl Model for CountedRule {
    ghost use Rattle.ep_base.specs.Cards.CardAnswer.{Rule};

    ghost Value = { Rule };

    ghost view = { λ r. record { prefix = r.prefix.items; responses = r.responses; wtx = r.wtx; wtxm = r.wtxm } };
}

impl CountedRule {
    fn of(rule: Rule) -> CountedRule
        ensures { result ≡ rule }
    {
        let Rule {
            prefix,
            responses,
            wtx,
            wtxm,
        } = rule;
        CountedRule {
            prefix,
            responses: Answers::of(responses),
            wtx,
            wtxm,
        }
    }

    // The next answer.
    fn answer(&mut self) -> Answered
        requires { IsRule self.old }
        ensures answer { result ≡ rule_answer self.old }
        ensures after { self.new ≡ rule_used self.old }
    {
        let response = self.responses.next();
        Answered {
            response,
            wtx: self.wtx,
            wtxm: self.wtxm,
        }
    }
}

// An application with its counts.
#[derive(Drop)]
pub(crate) struct CountedApp {
    name: Buf<16>,
    selects: Answers,
    wtx: u8,
    wtxm: u8,
    rules: Vec<CountedRule>,
}

impl Model for CountedApp {
    ghost use Rattle.ep_base.specs.Cards.CardAnswer.{App};

    ghost Value = { App };

    ghost view = { λ a. record { name = a.name.items; selects = a.selects; wtx = a.wtx; wtxm = a.wtxm; rules = a.rules.items } };
}

impl CountedApp {
    fn of(alloc: Global, app: App) -> Result<CountedApp, NoMemory>
        ensures { IfOk result (λ a. a ≡ app) }
    {
        let App {
            name,
            select,
            wtx,
            wtxm,
            rules,
        } = app;
        match counted_rules(alloc, rules) {
            Ok(rules) => Ok(CountedApp {
                name,
                selects: Answers::of(select),
                wtx,
                wtxm,
                rules,
            }),
            Err(error) => Err(error),
        }
    }

    pub(crate) fn name(&self) -> &[u8]
        ensures { result.now ≡ self.now.name }
    {
        self.name.as_slice()
    }

    // The next answer to its SELECT.
    pub(crate) fn select(&mut self) -> Answered
        requires { IsApp self.old }
        ensures answer { result ≡ app_answer self.old }
        ensures after { self.new ≡ app_selected self.old }
    {
        let response = self.selects.next();
        Answered {
            response,
            wtx: self.wtx,
            wtxm: self.wtxm,
        }
    }

    // The answer to a command that is no SELECT.
    pub(crate) fn execute(&mut self, command: &[u8]) -> Answered
        requires { IsApp self.old }
        ensures answer { result ≡ (app_executes self.old command.now).0 }
        ensures after { self.new ≡ (app_executes self.old command.now).1 }
    {
        match place_of_rule(&self.rules, command) {
            None => plain(&UNKNOWN_INSTRUCTION),
            Some(place) => self.rules[place].answer(),
        }
    }
}

// The place of the first rule whose prefix begins a command.
fn place_of_rule(rules: &[CountedRule], command: &[u8]) -> Option<usize>
    ensures { result ≡ position (λ r. starts_with nat_eq command.now r.prefix) rules.now }
{
    rules
        .iter()
        .position(|rule| command.starts_with(&rule.prefix))
}

// The rules, each with a count of 0.
fn counted_rules(alloc: Global, rules: Vec<Rule>) -> Result<Vec<CountedRule>, NoMemory>
    ensures { IfOk result (λ v. v.items ≡ rules.items) }
{
    let mut counted = Vec::new(alloc);
    for rule in rules {
        if counted.push(CountedRule::of(rule)).is_err() {
            return Err(NoMemory);
        }
    }
    Ok(counted)
}

// The applications, each with counts of 0.
pub(crate) fn counted_apps(alloc: Global, apps: Vec<App>) -> Result<Vec<CountedApp>, NoMemory>
    ensures { IfOk result (λ v. v.items ≡ apps.items) }
{
    let mut counted = Vec::new(alloc);
    for app in apps {
        let app = CountedApp::of(alloc, app)?;
        if counted.push(app).is_err() {
            return Err(NoMemory);
        }
    }
    Ok(counted)
}
