//! The inventory over a field.
ghost use Rattle.std.specs.Prelude.{◌≡◌, ◌≤◌, ◌<◌, ◌+◌, ◌-◌, ◌*◌, ◌^◌, List, length, IfOk, IfErr, OnErr, IsErrOf};
ghost use Rattle.arrayvec.specs.ArrayVec.{array_vec_len};
ghost use Rattle.ep_base.specs.Streams.Causes.{HasCause};
ghost use Rattle.inventory.specs.Exchanges.{Comes};
ghost use Rattle.inventory.specs.Finds.{Finds};
ghost use Rattle.inventory.specs.Steps.{one_more};
ghost use Rattle.inventory.specs.Tags.{AreTags};
ghost use Rattle.inventory.specs.Told.{Stood, Tells, tags_of};
ghost use Rattle.inventory.specs.Turns.{Turns};
ghost use Rattle.inventory.specs.Walks.{IsWalk, IsClearEnd, turned};

use crate::field::{BitField, Prefix};
use crate::tag::Tag;
use crate::walk::{NOTHING, Walk};
use arrayvec::ArrayVec;

/// Why an inventory ended before all cards were found.
#[derive(Clone, Copy, Debug, PartialEq, Eq)]
pub enum InventoryEnd {
    /// The field failed.
    Device,
    /// The field answered what no field of Type A cards answers.
    Odd {
        /// The level at which it was asked.
        level: u8,
        /// The bits with which it was asked; those past their number are 0.
        known: Prefix,
    },
    /// There are more than 16 cards.
    Many,
}

// Makes one exchange, and says whether all cards are found.
fn turn<F: BitField>(
    field: &mut F,
    walk: &mut Walk,
    found: &mut ArrayVec<Tag, 16>,
) -> Result<bool, InventoryEnd>
    requires { IsWalk walk.old }
    ensures turns { Turns F.steps walk.old found.old.items (F.state field.old) (turned result walk.new found.new.items) (F.state field.new) }
    ensures kept { OnErr result (found.new.items ≡ found.old.items) }
    ensures count { F.exchanges field.new ≡ one_more (F.exchanges field.old) }
    ensures cause { HasCause (F.faults field.old) (F.faults field.new) (IsErrOf result InventoryEnd.Device) }
{
    let known = walk.known();
    if !walk.awake() {
        return match field.wake() {
            Err(_) => Err(InventoryEnd::Device),
            Ok(false) => Err(InventoryEnd::Odd {
                level: 1,
                known: NOTHING,
            }),
            Ok(true) => {
                walk.woken();
                Ok(false)
            }
        };
    }
    if known.bits < 32 {
        return match field.ask(walk.level(), &known) {
            Err(_) => Err(InventoryEnd::Device),
            Ok(heard) => {
                walk.heard(&heard)?;
                Ok(false)
            }
        };
    }
    match field.select(walk.level(), &known.bytes) {
        Err(_) => Err(InventoryEnd::Device),
        Ok(sak) => walk.selected(sak, found),
    }
}

/// Finds every card of a field, in rising order of the bits of their levels' values, and answers the number of exchanges.
/// `found` is empty before; after an error it has the cards that were complete by then.
///
/// Errors: `Device` where the field failed, and its count of faults rose; `Many` where a seventeenth card is complete;
/// `Odd` where the field answers what no field of Type A cards answers, which never comes over lawful cards.
pub fn inventory<F: BitField>(
    field: &mut F,
    found: &mut ArrayVec<Tag, 16>,
) -> Result<u32, InventoryEnd>
    requires { array_vec_len found.old ≡ 0 }
    ensures comes { Comes F.steps (F.state field.old) result found.new.items (F.state field.new) }
    ensures finds { (shown : F.State → List Stood) → Tells F.steps shown → AreTags (tags_of (shown (F.state field.old))) →
        Finds (tags_of (shown (F.state field.old))) found.new.items result }
    ensures number { IfOk result (λ n. F.exchanges field.new < 2 ^ 64 - 1 → F.exchanges field.new ≡ F.exchanges field.old + n) }
    ensures most { IfOk result (λ n. n ≤ 19 * length found.new.items + 1) }
    ensures clear { IfErr result IsClearEnd }
    ensures cause { HasCause (F.faults field.old) (F.faults field.new) (IsErrOf result InventoryEnd.Device) }
{
    let Ok(()) = field.reset() else {
        return Err(InventoryEnd::Device);
    };
    match field.wake() {
        Err(_) => return Err(InventoryEnd::Device),
        Ok(false) => return Ok(1),
        Ok(true) => {}
    }
    let mut walk = Walk::start();
    let mut exchanges: u32 = 1;
    'turns: loop {
        exchanges += 1;
        match turn(field, &mut walk, found) {
            Err(end) => return Err(end),
            Ok(over) => {
                if over {
                    return Ok(exchanges);
                }
            }
        }
    }
}
