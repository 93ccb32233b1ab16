//! The Type A cards of a field.
ghost use Rattle.std.specs.Prelude.{◌≡◌, ◌≤◌, length, IfOk, OnOk};
ghost use Rattle.ep_base.specs.declared.limits.TheConstants.{CARDS};
ghost use Rattle.rf_field.specs.Fields.{field_of};
ghost use Rattle.rf_field.specs.Plans.{type_a_plan};
ghost use Rattle.inventory_run.specs.Tagged.{placed_tags, with_plan, AreBytes, HaveBytes};

use ep_base::{Buf, CARDS, NoMemory};
use inventory::Tag;
use rf_field::{APlan, Field};
use std::alloc::Global;

/// The Type A cards of a field, in the order of their numbers, whether they are present or not.
///
/// Errors: `NoMemory`.
pub(crate) fn tags_of(alloc: Global, field: &Field) -> Result<Vec<Tag>, NoMemory>
    requires { length (field_of field.now).cards ≤ CARDS }
    ensures tags { IfOk result (λ v. v.items ≡ placed_tags (field_of field.now).cards) }
    ensures bytes { IfOk result (λ v. HaveBytes v.items) }
{
    let mut tags = Vec::new(alloc);
    let mut number: u8 = 0;
    while usize::from(number) < CARDS {
        number += 1;
        push_card(field, number, &mut tags)?;
    }
    Ok(tags)
}

// Adds the card with this number, where there is one of Type A.
fn push_card(field: &Field, number: u8, tags: &mut Vec<Tag>) -> Result<(), NoMemory>
    ensures tags { OnOk result (tags.new.items ≡ with_plan tags.old.items (type_a_plan number (field_of field.now).cards)) }
    ensures bytes { OnOk result (HaveBytes tags.old.items → HaveBytes tags.new.items) }
{
    let Some(plan) = field.type_a(number) else {
        return Ok(());
    };
    if tags.push(tag_of(plan)).is_err() {
        return Err(NoMemory);
    }
    Ok(())
}

// What an inventory tells of a card with this plan.
fn tag_of(plan: &APlan) -> Tag
    ensures tag { result ≡ record { uid = plan.now.uid; sak = plan.now.sak } }
    ensures bytes { AreBytes result.uid }
{
    Tag {
        uid: copied(plan.uid.as_slice()),
        sak: plan.sak,
    }
}

// A copy of a UID.
fn copied(uid: &[u8]) -> Buf<10>
    requires { length uid.now ≤ 10 }
    ensures copy { result.items ≡ uid.now }
    ensures bytes { AreBytes result.items }
{
    let mut copy = Buf::<10>::new();
    copy.try_extend_from_slice(uid).unwrap();
    copy
}
