//! Tables of configurations and directories, and what is selected. The clauses say that the definitions are met; these rows
//! say what they give.
//!
//! Each part of a table is one configuration and one directory, for an amount of 1000. A line in braces is what a
//! Combination says beside its type, a line with a colon is so many entries with these objects, each a tag and a value, and
//! the line after `=` is what is found.

use acquirer_config::Config;
use apdu::Response;
use ep_base::{ARENA_BYTES, ARENA_SLOTS};
use ppse::read_directory;
use pre_processing::{Prepared, prepare};
use select_rules::Candidates;
use std::alloc::AllocGlobal;
use std::process::Abort;
use std::test::Fail;
use tlv_arena::Arena;

/// The pairs of an entry and a Combination, in the order in which they are tried.
const PAIRS: &str = "\
{aid = 'a000000003', kernel = 3}
{aid = 'a000000003', kernel = 8454145}
{aid = 'f000000001', kernel = 9}
1: 4f=a0000000031010 9f2a=03
1: 4f=a0000000031010 9f2a=
1: 4f=a0000000031010 9f2a=80
1: 4f=a0000000031010 9f2a=810001
1: 4f=f00000000110
= 1,1 4,2 5,3

{aid = 'a000000003', kernel = 3}
{aid = 'a0000000031010', kernel = 3}
1: 4f=a0000000031010
1: 4f=a0000000031010 87=00
1: 4f=a0000000031010 87=02
1: 4f=a0000000031010 87=02
1: 4f=a0000000031010 87=01
= 5,1 5,2 3,1 3,2 4,1 4,2 1,1 1,2 2,1 2,2

{aid = 'a000000004', kernel = 2}
{aid = 'a000000004', kernel = 1}
{aid = 'a000000003', kernel = 3}
{aid = 'a000000003', kernel = 2}
{aid = 'a000000025', kernel = 4}
{aid = 'a000000025', kernel = 3}
{aid = 'a000000065', kernel = 5}
{aid = 'a000000065', kernel = 4}
{aid = 'a000000152', kernel = 6}
{aid = 'a000000152', kernel = 5}
{aid = 'a000000333', kernel = 7}
{aid = 'a000000333', kernel = 6}
{aid = 'a000000277', kernel = 8}
{aid = 'a000000277', kernel = 1}
1: 4f=a0000000041010
1: 4f=a0000000031010
1: 4f=a000000025
1: 4f=a0000000651010
1: 4f=a0000001523010
1: 4f=a000000333010101
1: 4f=a0000002771010
= 1,1 2,3 3,5 4,7 5,9 6,11 7,13 7,14

{aid = 'a000000003', kernel = 3}
{aid = 'a000000003', kernel = 63}
{aid = 'a000000003', kernel = 64}
{aid = 'a000000003', kernel = 127}
{aid = 'a000000003', kernel = 128}
{aid = 'a000000003', kernel = 33024}
{aid = 'a000000003', kernel = 8388609}
{aid = 'a000000003', kernel = 8454145}
{aid = 'a000000003', kernel = 12582913}
{aid = 'a000000003', kernel = 12648449}
1: 4f=a0000000031010 9f2a=00
1: 4f=a0000000031010 9f2a=3f
1: 4f=a0000000031010 9f2a=40
1: 4f=a0000000031010 9f2a=7f
1: 4f=a0000000031010 9f2a=8100
1: 4f=a0000000031010 9f2a=800001
1: 4f=a0000000031010 9f2a=c00001
1: 4f=a0000000031010 9f2a=81000142
1: 4f=a0000000031010 9f2a=c10001
= 1,1 1,2 1,3 1,4 1,5 1,6 1,7 1,8 1,9 1,10 2,2 3,3 4,4 8,8 9,10

{aid = 'a000000003', kernel = 3}
{aid = 'a000000003', kernel = 128}
1: 4f=a0000000031010 9f2a=
1: 4f=a0000000031010 9f2a=80
1: 4f=a0000000031010 9f2a=03ffff
1: 4f=a0000000041010 9f2a=03
= 3,1

{aid = 'a000000003', kernel = 3}
{aid = 'a000000003', kernel = 3}
1: 4f=a000000003 87=
1: 4f=a000000003 87=00
1: 4f=a000000003 87=10
1: 4f=a000000003
1: 4f=a000000003 87=0f
1: 4f=a000000003 87=0201
1: 4f=a000000003 87=f1
1: 4f=a000000003 87=02 87=01
= 7,1 7,2 6,1 6,2 8,1 8,2 5,1 5,2 1,1 1,2 2,1 2,2 3,1 3,2 4,1 4,2

{aid = 'a000000003', kernel = 3}
1: 4f=ff 4f=a000000003
1: 4f=a000000003 4f=ff
1: 4f= 4f=a000000003
1: 87=01
1: 4f=a0000000
1: 4f=a0000000030102030405060708090a0b
1: 4f=a0000000030102030405060708090a0b0c
1: 4f=a000000004 4f=a000000003
= 2,1 6,1

{aid = 'a0000000031010', kernel = 3}
{aid = 'a000000003101001', kernel = 3}
{aid = 'a0000000032010', kernel = 3}
1: 4f=a000000003
1: 4f=a00000000310
1: 4f=a0000000031010
1: 4f=a000000003101001
= 3,1 4,1 4,2

{aid = 'a000000003', kernel = 3, limit = 1000}
{aid = 'a000000003', kernel = 3, limit = 1001}
1: 4f=a000000003
= 1,2

{aid = 'a000000003', kernel = 3}
27: 4f=a000000003
= 1,1 2,1 3,1 4,1 5,1 6,1 7,1 8,1 9,1 10,1 11,1 12,1 13,1 14,1 15,1 16,1 17,1 18,1 19,1 20,1 21,1 22,1 23,1 24,1 25,1 26,1 27,1

{aid = 'a000000003', kernel = 3}
1:
27: 4f=a000000003
= 2,1 3,1 4,1 5,1 6,1 7,1 8,1 9,1 10,1 11,1 12,1 13,1 14,1 15,1 16,1 17,1 18,1 19,1 20,1 21,1 22,1 23,1 24,1 25,1 26,1 27,1 28,1

{aid = 'a000000003', kernel = 3}
=";

/// Each final SELECT with the ADF Name and whether the Combination supports the Extended Selection.
const SELECTS: &str = "\
{aid = 'a0000000031010', kernel = 3, extended = true}
{aid = 'a0000000031010', kernel = 3}
1: 4f=a0000000031010 9f29=010203040506070809
1: 4f=a0000000031010 9f29=0102030405060708090a
1: 4f=a0000000031010 9f29=
1: 4f=a0000000031010
1: 4f=a0000000031010 9f29=aa 9f29=bb
= 00a4040010a000000003101001020304050607080900 a0000000031010 1
= 00a4040007a000000003101000 a0000000031010 0
= 00a4040007a000000003101000 a0000000031010 1
= 00a4040007a000000003101000 a0000000031010 0
= 00a4040007a000000003101000 a0000000031010 1
= 00a4040007a000000003101000 a0000000031010 0
= 00a4040007a000000003101000 a0000000031010 1
= 00a4040007a000000003101000 a0000000031010 0
= 00a4040008a0000000031010aa00 a0000000031010 1
= 00a4040007a000000003101000 a0000000031010 0

{aid = 'a000000003', kernel = 3, extended = true}
1: 4f=a00000000301020304050607080910aa 9f29=
1: 4f=a00000000301020304050607080910aa 9f29=01
1: 4f=a000000003010203040506070809aa 9f29=01
= 00a4040010a00000000301020304050607080910aa00 a00000000301020304050607080910aa 1
= 00a4040010a00000000301020304050607080910aa00 a00000000301020304050607080910aa 1
= 00a4040010a000000003010203040506070809aa0100 a000000003010203040506070809aa 1";

#[derive(Drop)]
struct Selection {
    prepared: Prepared,
    arena: Arena,
    candidates: Candidates,
}

/// An object with its length in the short form up to 127 bytes, else in the 81 form.
fn object(rt: &impl AllocGlobal, tag: &str, value: &str) -> Result<String, Fail> {
    let len = value.len() / 2;
    let form = if len < 128 { "" } else { "81" };
    Ok(format!(in rt.alloc(); "{tag}{form}{len:02x}{value}")?)
}

/// The entries of a line.
fn entries_of(rt: &(impl Abort + AllocGlobal), line: &str) -> Result<String, Fail> {
    let (count, objects) = line.split_once(':').expect(rt, line);
    let count: usize = count.parse().ok().expect(rt, line);
    let mut value = String::new(rt.alloc());
    for one in objects.split_whitespace() {
        let (tag, bytes) = one.split_once('=').expect(rt, line);
        value.push_str(object(rt, tag, bytes)?.as_str())?;
    }
    Ok(object(rt, "61", value.as_str())?.repeat(rt.alloc(), count)?)
}

/// The candidates of a configuration and the entries of a directory.
fn select_of(
    rt: &(impl Abort + AllocGlobal),
    combinations: &str,
    entries: &str,
) -> Result<Selection, Fail> {
    let document = format!(in rt.alloc(); "combinations = [{combinations}]")?;
    let table = toml::table_from_str(rt.alloc(), document.as_str()).ok();
    let config = Config::of_table(rt.alloc(), &table.expect(rt, combinations)).ok();
    let prepared = prepare(&config.expect(rt, combinations), 0, 1000);
    let discretionary = object(rt, "bf0c", entries)?;
    let proprietary = object(rt, "a5", discretionary.as_str())?;
    let mut answer = object(rt, "6f", proprietary.as_str())?;
    answer.push_str("9000")?;
    let bytes = hex::decode(rt.alloc(), answer.as_str())
        .ok()
        .expect(rt, entries);
    let answer = Response::of(&bytes).ok().expect(rt, entries);
    let arena = Arena::open(rt.alloc(), ARENA_BYTES, ARENA_SLOTS).ok();
    let mut arena = arena.expect(rt, "an arena");
    let directory = read_directory(&mut arena, &answer);
    let candidates = Candidates::build(&prepared, &arena, &directory);
    Ok(Selection {
        prepared,
        arena,
        candidates,
    })
}

/// The candidate that is tried next, as a table has it.
fn found_of(rt: &impl AllocGlobal, at: &Selection, selects: bool) -> Option<String> {
    let candidates = &at.candidates;
    if selects {
        let command = candidates.final_command(&at.prepared, &at.arena)?;
        let command = hex::encode(rt.alloc(), command.bytes()).ok()?;
        let name = hex::encode(rt.alloc(), candidates.name(&at.arena)?.as_slice()).ok()?;
        let extended = u8::from(candidates.current(&at.prepared)?.combination.extended);
        return format!(in rt.alloc(); " {command} {name} {extended}").ok();
    }
    let pair = candidates.next()?;
    format!(in rt.alloc(); " {},{}", pair.entry, pair.combination).ok()
}

/// A configuration and a directory, and what is found until no candidate is left.
fn check_part(rt: &(impl Abort + AllocGlobal), part: &str, selects: bool) -> Result<(), Fail> {
    let alloc = rt.alloc();
    let mut combinations = String::new(alloc);
    let mut entries = String::new(alloc);
    let mut wanted = String::new(alloc);
    for line in part.lines() {
        if let Some(keys) = line.strip_prefix('{') {
            combinations.push_str("{type = 0, ")?;
            combinations.push_str(keys)?;
            combinations.push_str(",")?;
        } else if let Some(found) = line.strip_prefix('=') {
            wanted.push_str(found)?;
        } else {
            entries.push_str(entries_of(rt, line)?.as_str())?;
        }
    }
    let mut at = select_of(rt, combinations.as_str(), entries.as_str())?;
    let mut found = String::new(alloc);
    for _ in 0..at.candidates.len() {
        let one = found_of(rt, &at, selects).expect(rt, part);
        found.push_str(one.as_str())?;
        at.candidates.remove_current();
    }
    assert!(rt; found.as_str() == wanted.as_str(), "{part}");
    assert!(rt; at.candidates.len() == 0, "{part}");
    assert!(rt; found_of(rt, &at, selects).is_none(), "{part}");
    Ok(())
}

#[test]
fn candidates_and_their_selects(rt: HostRuntime) -> Result<(), Fail> {
    for part in PAIRS.split("\n\n") {
        check_part(&rt, part, false)?;
    }
    for part in SELECTS.split("\n\n") {
        check_part(&rt, part, true)?;
    }
    Ok(())
}
