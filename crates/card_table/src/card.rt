//! A card of the document, and its table.
ghost use Rattle.std.specs.Prelude.{◌≡◌, ◌+◌, ◌≤◌, [], codes, length};
ghost use Rattle.toml.specs.View.{view};
ghost use Rattle.doc_table.specs.Read.{Gives, GivesIfRoom, required, defaulted, byte_text};
ghost use Rattle.doc_table.specs.Section.{place};
ghost use Rattle.card_table.specs.Cards.{a_card_at, b_card_at, card_of_kind, ppse_list, app_list};

use crate::app::{AppTable, ResponseText};
use crate::codes::{frame_code, waiting_code};
use crate::identifier::{KindWord, SakText, UidText};
use crate::type_plan::TypePlan;
use apdu::Response;
use card_image::App;
use doc_table::{DocFault, DocKind, ListOf, Path, Read, Section, TableEnd, table_in};
use ep_base::{ANSWERS, APPLICATIONS, Buf, CardKind};
use std::alloc::Global;
use std::marker::Model;
use toml::Value;
use type_a::APlan;
use type_b::BPlan;

/// A card of the document: what it is on the air, and what it answers.
#[derive(Drop)]
pub struct Card {
    /// What it is outside the block protocol.
    pub plan: TypePlan,
    /// The answers to SELECT PPSE, at most 16, given in turn and the last one again and again.
    pub ppse: Vec<Response>,
    /// The applications, at most 16.
    pub apps: Vec<App>,
}

impl Model for Card {
    ghost use Rattle.card_table.specs.Cards.{Card, IsCard};
    ghost use Rattle.card_table.specs.Outsides.{outside_of};

    ghost Value = { Card };

    ghost view = { λ c. record { outside = outside_of c.plan; ppse = c.ppse.items; apps = c.apps.items } };

    ghost invariant = { λ c. IsCard (record { outside = outside_of c.plan; ppse = c.ppse.items; apps = c.apps.items }) };
}

const A_KEYS: [&str; 8] = [
    "kind",
    "uid",
    "sak",
    "historical",
    "fsci",
    "fwi",
    "ppse",
    "apps",
];

const B_KEYS: [&str; 8] = [
    "kind", "pupi", "app_data", "iso4", "fsci", "fwi", "ppse", "apps",
];

/// Reads a card's table.
#[derive(Clone, Copy, Debug)]
pub struct CardTable;

impl Read for CardTable {
    ghost use Rattle.card_table.specs.Cards.{Card as CardData, card};

    type Out = Card;

    ghost Meaning = { CardData };

    ghost seen = { λ c. c };

    ghost reads = { λ _. card };

    ghost room = { 42 };

    fn read(&self, alloc: Global, path: &Path, value: &Value) -> Result<Card, TableEnd> {
        let table = table_in(path, value)?;
        let kind = Section::unchecked(path, table).required(alloc, "kind", &KindWord)?;
        card_of_kind(alloc, kind, path, value)
    }
}

// A card's table, whose keys are those of the kind.
fn card_of_kind(alloc: Global, kind: CardKind, path: &Path, value: &Value) -> Result<Card, TableEnd>
    requires { length path.now + 42 ≤ 96 }
    ensures { GivesIfRoom (λ c. c) result (card_of_kind kind path.now (view value.now)) }
{
    match kind {
        CardKind::A => a_card_at(alloc, &Section::of_value(path, value, &A_KEYS)?),
        CardKind::B => b_card_at(alloc, &Section::of_value(path, value, &B_KEYS)?),
    }
}

#[tactic(auto, unfolding(crate::specs::Cards::a_card_at))]
fn a_card_at(alloc: Global, section: &Section) -> Result<Card, TableEnd>
    requires { length section.now.path.now + 42 ≤ 96 }
    ensures { GivesIfRoom (λ c. c) result (a_card_at (place section.now)) }
{
    let uid = section.required(alloc, "uid", &UidText)?;
    let sak = section.defaulted(alloc, "sak", &SakText, 0x20)?;
    let historical = historical_bytes(section)?;
    let fsci = frame_code(section)?;
    let fwi = waiting_code(section)?;
    let ppse = ppse_of(alloc, section)?;
    let apps = apps_of(alloc, section)?;
    let plan = TypePlan::A(APlan {
        uid,
        sak,
        fsci,
        fwi,
        historical,
    });
    Ok(Card { plan, ppse, apps })
}

#[tactic(auto, unfolding(crate::specs::Cards::b_card_at))]
fn b_card_at(alloc: Global, section: &Section) -> Result<Card, TableEnd>
    requires { length section.now.path.now + 42 ≤ 96 }
    ensures { GivesIfRoom (λ c. c) result (b_card_at (place section.now)) }
{
    let pupi = pupi_bytes(section)?;
    let app_data = section.array::<4>("app_data")?.unwrap_or([0; 4]);
    let iso4 = section.truth_or("iso4", true)?;
    let fsci = frame_code(section)?;
    let fwi = waiting_code(section)?;
    let ppse = ppse_of(alloc, section)?;
    let apps = apps_of(alloc, section)?;
    let plan = TypePlan::B(BPlan {
        pupi,
        app_data,
        fsci,
        fwi,
        iso4,
    });
    Ok(Card { plan, ppse, apps })
}

// The historical bytes, none where the key is absent.
fn historical_bytes(section: &Section) -> Result<Buf<15>, DocFault>
    requires { length section.now.path.now + 42 ≤ 96 }
    ensures { Gives (λ b. b.items) result (defaulted [] (byte_text 0 15) (codes "historical") (place section.now)) }
{
    match section.bytes::<15>("historical", 0)? {
        Some(bytes) => Ok(bytes),
        None => Ok(Buf::new()),
    }
}

// The PUPI.
fn pupi_bytes(section: &Section) -> Result<[u8; 4], DocFault>
    requires { length section.now.path.now + 42 ≤ 96 }
    ensures { result ≡ required (byte_text 4 4) (codes "pupi") (place section.now) }
{
    match section.array::<4>("pupi")? {
        Some(bytes) => Ok(bytes),
        None => Err(section.fault("pupi", DocKind::Missing, 0)),
    }
}

// The answers to SELECT PPSE.
fn ppse_of(alloc: Global, section: &Section) -> Result<Vec<Response>, TableEnd>
    requires { length section.now.path.now + 42 ≤ 96 }
    ensures { GivesIfRoom (λ v. v.items) result (ppse_list (place section.now)) }
{
    let answers = ListOf::texts(0, ANSWERS, ResponseText);
    section.defaulted(alloc, "ppse", &answers, Vec::new(alloc))
}

// The applications.
fn apps_of(alloc: Global, section: &Section) -> Result<Vec<App>, TableEnd>
    requires { length section.now.path.now + 42 ≤ 96 }
    ensures { GivesIfRoom (λ v. v.items) result (app_list (place section.now)) }
{
    let tables = ListOf::tables(0, APPLICATIONS, AppTable);
    section.defaulted(alloc, "apps", &tables, Vec::new(alloc))
}
