//! The cards of a load.
ghost use Rattle.std.specs.Prelude.{◌≡◌, ◌≤◌, ◌<◌, ◌^◌, length, IfOk};
ghost use Rattle.card_table.specs.Outsides.{outside_of};
ghost use Rattle.ep_load.specs.Cards.{id_of, outside_drawn, rule_with, app_named, card_drawn};

use crate::draws::Draws;
use crate::memory::list_of;
use crate::responses::{kernel_response, ppse_response, select_response};
use crate::terms::chosen;
use card_image::{App, Rule};
use card_table::{Card, TypePlan};
use ep_base::{Buf, NoMemory};
use std::alloc::Global;
use type_a::APlan;
use type_b::BPlan;

// The UID or PUPI of the card of the transaction with this number.
fn id_of(number: u32) -> [u8; 4]
    ensures { result ≡ id_of number }
{
    [
        0x08,
        (number / 65_536 % 256) as u8,
        (number / 256 % 256) as u8,
        (number % 256) as u8,
    ]
}

// What the card is outside the block protocol.
fn plan_drawn(number: u32, draws: &Draws) -> TypePlan
    ensures { outside_of result ≡ outside_drawn number draws.now }
{
    let id = id_of(number);
    let fsci = draws.fsci as u8;
    if draws.kind == 0 {
        let mut uid = Buf::new();
        uid.try_extend_from_slice(&id).unwrap();
        TypePlan::A(APlan {
            uid,
            sak: 0x20,
            fsci,
            fwi: 4,
            historical: Buf::new(),
        })
    } else {
        TypePlan::B(BPlan {
            pupi: id,
            app_data: [0; 4],
            fsci,
            fwi: 4,
            iso4: true,
        })
    }
}

// The rule of its application.
fn rule_with(alloc: Global, wtx: u8) -> Result<Rule, NoMemory>
    ensures { IfOk result (λ r. r ≡ rule_with wtx) }
{
    let mut prefix = list_of(alloc, 0x80)?;
    if prefix.push(0xa8).is_err() {
        return Err(NoMemory);
    }
    Ok(Rule {
        prefix,
        responses: list_of(alloc, kernel_response())?,
        wtx,
        wtxm: 1,
    })
}

// Its application.
fn app_named(alloc: Global, name: Buf<16>, wtx: u8) -> Result<App, NoMemory>
    ensures { IfOk result (λ a. a ≡ app_named name.items wtx) }
{
    let select = list_of(alloc, select_response(name.as_slice()))?;
    let rules = list_of(alloc, rule_with(alloc, wtx)?)?;
    Ok(App {
        name,
        select,
        wtx: 0,
        wtxm: 1,
        rules,
    })
}

// The card of the transaction with this number.
pub(crate) fn card_drawn(alloc: Global, number: u32, draws: &Draws) -> Result<Card, NoMemory>
    ensures { IfOk result (λ c. c ≡ card_drawn number draws.now) }
{
    let name = chosen(draws.choice).aid;
    let ppse = list_of(alloc, ppse_response(name.as_slice()))?;
    let apps = list_of(alloc, app_named(alloc, name, draws.wtx as u8)?)?;
    Ok(Card {
        plan: plan_drawn(number, draws),
        ppse,
        apps,
    })
}
