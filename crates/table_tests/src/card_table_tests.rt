//! The cards of a document, as they are read and as a field takes them.
//!
//! A row of the table is the text of some cards, and after `=>` what is read: of a card of Type A its UID, SAK, frame size
//! code, FWI and historical bytes, of one of Type B its PUPI, application data, frame size code, FWI and whether it follows
//! the block protocol; how many answers to SELECT PPSE it has; for each application its S(WTX), its WTXM and its rules, the
//! first of them with its own; and the number of the card in the field. Or it is the first fault.
ghost use Rattle.std.specs.Prelude.{◌≤◌, length, IfOk};

use crate::rows::{table, told_fault};
use card_table::{Card, TypePlan, cards_of, plans_of};
use doc_table::{Path, Section, TableEnd};
use ep_base::CARDS;
use rf_field::CardPlan;
use std::alloc::AllocGlobal;
use std::process::Abort;
use std::test::Fail;

const TABLE: &str = "\
{kind = 'A', uid = '01020304'} => A [1, 2, 3, 4] 32 8 4 [] 0, A1
{kind = 'B', pupi = '11223344'} => B [17, 34, 51, 68] [0, 0, 0, 0] 8 4 true 0, B1
{kind = 'B', pupi = '11223344', iso4 = false, apps = [{name = 'a000000004', select = ['9000'], wtx = 8, rules = [{prefix = '80', responses = ['9000'], wtxm = 59}]}]} => B [17, 34, 51, 68] [0, 0, 0, 0] 8 4 false 0 app 8 1 1 rule 0 59, B1
{kind = 'B', pupi = '11223344'}, {kind = 'A', uid = '01020304'} => B [17, 34, 51, 68] [0, 0, 0, 0] 8 4 true 0, A [1, 2, 3, 4] 32 8 4 [] 0, B1A2
{kind = 'A', uid = '0a020304'}, {kind = 'B', pupi = '0a020304'}, {kind = 'A', uid = '0A020304'} => Conflict cards[3].uid 1";

/// What these cards are read as.
fn cards_in(rt: &(impl Abort + AllocGlobal), text: &str) -> Result<Vec<Card>, TableEnd>
    ensures { IfOk result (λ v. length v.items ≤ CARDS) }
{
    let document = format!(in rt.alloc(); "cards = [{text}]").ok();
    let document = document.expect(rt, "memory");
    let table = table(rt, document.as_str());
    let path = Path::root();
    cards_of(rt.alloc(), &Section::unchecked(&path, &table))
}

/// A card, as in the table.
fn told_of(rt: &impl AllocGlobal, card: &Card) -> Result<String, Fail> {
    let mut told = match &card.plan {
        TypePlan::A(plan) => format!(in rt.alloc();
            "A {:?} {} {} {} {:?} {}",
            plan.uid.as_slice(),
            plan.sak,
            plan.fsci,
            plan.fwi,
            plan.historical.as_slice(),
            card.ppse.len()
        )?,
        TypePlan::B(plan) => format!(in rt.alloc();
            "B {:?} {:?} {} {} {} {}",
            plan.pupi,
            plan.app_data,
            plan.fsci,
            plan.fwi,
            plan.iso4,
            card.ppse.len()
        )?,
    };
    if let Some(app) = card.apps.first() {
        let one = format!(in rt.alloc(); " app {} {} {}", app.wtx, app.wtxm, app.rules.len())?;
        told.push_str(one.as_str())?;
        if let Some(rule) = app.rules.first() {
            let one = format!(in rt.alloc(); " rule {} {}", rule.wtx, rule.wtxm)?;
            told.push_str(one.as_str())?;
        }
    }
    told.push_str(", ")?;
    Ok(told)
}

/// What is read of these cards, as in the table.
fn told_in(rt: &(impl Abort + AllocGlobal), text: &str) -> Result<String, Fail> {
    if let Some(TableEnd::Fault(fault)) = cards_in(rt, text).err() {
        return told_fault(rt, &fault);
    }
    let cards = cards_in(rt, text).ok().expect(rt, text);
    let mut told = String::new(rt.alloc());
    for card in &cards {
        told.push_str(told_of(rt, card)?.as_str())?;
    }
    for plan in &plans_of(rt.alloc(), cards)? {
        let (kind, image) = match plan {
            CardPlan::A(_, image) => ("A", image),
            CardPlan::B(_, image) => ("B", image),
        };
        told.push_str(format!(in rt.alloc(); "{kind}{}", image.number())?.as_str())?;
    }
    Ok(told)
}

#[test]
fn cards(rt: HostRuntime) -> Result<(), Fail> {
    for line in TABLE.lines() {
        let (text, wanted) = line.split_once(" => ").expect(&rt, line);
        assert!(rt; told_in(&rt, text)?.as_str() == wanted, "{line}");
    }
    Ok(())
}
