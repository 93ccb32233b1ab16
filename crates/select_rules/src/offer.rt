//! The entries that can be candidates.
ghost use Rattle.std.specs.Prelude.{◌≡◌, ◌<◌, ◌≤◌, ◌+◌, ◌++◌, ◌==◌, true, map, length, Some, IfSome};
ghost use Rattle.std.specs.Option.{option_map};
ghost use Rattle.arrayvec.specs.ArrayVec.{array_vec_len};
ghost use Rattle.ep_base.specs.Objects.Directory.{Entry, is_named, entry_held, entries_held};
ghost use Rattle.ep_rules.specs.EntryPoint.Candidates.{fits, pairs_of, pairs_from};
ghost use Rattle.select_rules.specs.Offer.{name_of, OfferOf, Offers, most_pairs};
ghost use Rattle.select_rules.specs.Order.{ranked_of};

use crate::entry::{priority_key, requested_kernel};
use crate::pair::Ranked;
use arrayvec::ArrayVec;
use ep_base::{NAMED, PAIRS, TYPE_COMBINATIONS};
use ppse::{ADF_NAME, APPLICATION_PRIORITY, KERNEL_IDENTIFIER, entry_value};
use pre_processing::PreparedOne;
use tlv_arena::Arena;

// An entry that can be a candidate: its ADF Name has 5 to 16 bytes, and its 9F2A doesn't skip it.
#[derive(Clone, Copy)]
pub(crate) struct Offer<'a> {
    name: &'a [u8],
    priority: u8,
    kernel: u32,
}

// The ADF Name of an entry, where it has 5 to 16 bytes.
pub(crate) fn name(arena: &Arena, entry: u16) -> Option<&[u8]>
    ensures value { option_map (λ v. v.now) result ≡ name_of (entry_held entry arena.now.objects) }
    ensures short { IfSome result (λ v. length v.now ≤ 16) }
{
    let name = entry_value(arena, entry, ADF_NAME)?;
    if name.len() < 5 || name.len() > 16 {
        return None;
    }
    Some(name)
}

// What selection needs of an entry with this name, if the entry can be a candidate.
fn offer_of<'a>(arena: &'a Arena, entry: u16, name: &'a [u8]) -> Option<Offer<'a>>
    requires named { name_of (entry_held entry arena.now.objects) ≡ Some name.now }
    ensures { Offers (entry_held entry arena.now.objects) result }
{
    let kernel = requested_kernel(name, entry_value(arena, entry, KERNEL_IDENTIFIER))?;
    Some(Offer {
        name,
        priority: priority_key(entry_value(arena, entry, APPLICATION_PRIORITY)),
        kernel,
    })
}

// Whether an entry and a Combination are a candidate.
fn fits(offer: &Offer, one: &PreparedOne) -> bool
    ensures { (e : Entry) → OfferOf e offer.now → result ≡ fits e one.now }
{
    let combination = &one.combination;
    one.is_allowed()
        && offer.name.starts_with(combination.aid.as_slice())
        && (offer.kernel == 0 || offer.kernel == combination.kernel)
}

// Adds the pairs of an entry and the Combinations that fit it.
pub(crate) fn add_pairs(
    list: &mut ArrayVec<Ranked, PAIRS>,
    entry: u16,
    offer: &Offer,
    ones: &[PreparedOne],
)
    requires room { array_vec_len list.old + length ones.now ≤ PAIRS }
    requires few { length ones.now ≤ TYPE_COMBINATIONS }
    ensures count { array_vec_len list.new ≤ array_vec_len list.old + length ones.now }
    ensures pairs { (e : Entry) → OfferOf e offer.now → list.new.items ≡ list.old.items ++ map ranked_of (pairs_of entry e 1 ones.now) }
{
    for (index, one) in ones.iter().enumerate() {
        if fits(offer, one) {
            list.push(Ranked {
                priority: offer.priority,
                entry,
                combination: index as u8 + 1,
            });
        }
    }
}

// Adds the pairs of an entry that the arena holds, and says whether its ADF Name has 5 to 16 bytes.
fn add_entry(
    list: &mut ArrayVec<Ranked, PAIRS>,
    arena: &Arena,
    entry: u16,
    ones: &[PreparedOne],
) -> bool
    requires room { array_vec_len list.old + TYPE_COMBINATIONS ≤ PAIRS }
    requires few { length ones.now ≤ TYPE_COMBINATIONS }
    ensures named { result ≡ is_named (entry_held entry arena.now.objects) }
    ensures count { array_vec_len list.new ≤ array_vec_len list.old + most_pairs (entry_held entry arena.now.objects) }
    ensures pairs { list.new.items ≡ list.old.items ++ map ranked_of (pairs_of entry (entry_held entry arena.now.objects) 1 ones.now) }
{
    let Some(name) = name(arena, entry) else {
        return false;
    };
    if let Some(offer) = offer_of(arena, entry, name) {
        add_pairs(list, entry, &offer, ones);
    }
    true
}

// The pairs of the entries that the arena holds, so many of them, with these Combinations. Of the entries with an ADF Name
// of 5 to 16 bytes the first 28 count.
pub(crate) fn list_pairs(
    arena: &Arena,
    entries: u16,
    ones: &[PreparedOne],
) -> ArrayVec<Ranked, PAIRS>
    requires few { length ones.now ≤ TYPE_COMBINATIONS }
    ensures { result.items ≡ map ranked_of (pairs_from 0 1 (entries_held entries arena.now.objects) ones.now) }
{
    let mut list = ArrayVec::new();
    let mut named = 0;
    for index in 0..entries {
        if named == NAMED {
            return list;
        }
        named += usize::from(add_entry(&mut list, arena, index + 1, ones));
    }
    list
}
