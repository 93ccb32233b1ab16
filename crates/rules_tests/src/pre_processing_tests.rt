//! A table of Combinations, each with what is found of it. The clauses say that the definition is met; these rows say what
//! it gives.
//!
//! Each part of the table is one configuration. Its first line has the exponent of the currency and the amount, the next
//! ones what a Combination says beside its name and kernel, and after `=>` what is found of it: whether it is allowed, a
//! status check, a zero amount, the floor, the CVM, and the TTQ.

use acquirer_config::Config;
use pre_processing::{PreparedOne, prepare};
use std::alloc::AllocGlobal;
use std::process::Abort;
use std::test::Fail;

const TABLE: &str = "\
2 1000
limit = 999 => 0 0 0 0 0 -
limit = 1000 => 0 0 0 0 0 -
limit = 1001 => 1 0 0 0 0 -
floor = 999 => 1 0 0 1 0 -
floor = 1000 => 1 0 0 0 0 -
floor = 1001 => 1 0 0 0 0 -
cvm = 999 => 1 0 0 0 1 -
cvm = 1000 => 1 0 0 0 1 -
cvm = 1001 => 1 0 0 0 0 -
limit = 1000, floor = 999, cvm = 1000, ttq = '26004000' => 0 0 0 1 1 26c04000
zero_allowed = false, ttq = '2e004000' => 1 0 0 0 0 2e004000

2 1000
terminal_floor = 999 => 1 0 0 1 0 -
terminal_floor = 1000 => 1 0 0 0 0 -
terminal_floor = 1001 => 1 0 0 0 0 -
floor = 1000, terminal_floor = 999 => 1 0 0 0 0 -
floor = 999, terminal_floor = 1000 => 1 0 0 1 0 -
floor = 999, terminal_floor = 999 => 1 0 0 1 0 -
ttq = '36004000' => 1 0 0 0 0 36004000
ttq = '36c04000' => 1 0 0 0 0 36004000
ttq = 'ffffffff' => 1 0 0 0 0 ff3fffff
floor = 1000, cvm = 1000, ttq = '36004000' => 1 0 0 0 1 36404000
floor = 999, cvm = 1001, ttq = '36404000' => 1 0 0 1 0 36804000
floor = 999, ttq = '2e004000' => 1 0 0 1 0 2e804000

2 0
ttq = '26004000' => 1 0 1 0 0 26804000
zero_allowed = false, ttq = '26004000' => 0 0 0 0 0 26004000
ttq = '2e004000' => 0 0 1 0 0 2e004000

2 0
zero_allowed = true, ttq = '26004000' => 1 0 1 0 0 26804000
zero_allowed = true, ttq = '2e004000' => 0 0 1 0 0 2e004000
zero_allowed = false, ttq = '2e004000' => 0 0 0 0 0 2e004000
status_check = true => 1 0 1 0 0 -
zero_allowed = true => 1 0 1 0 0 -
zero_allowed = false => 0 0 0 0 0 -
limit = 0 => 0 0 1 0 0 -
floor = 0 => 1 0 1 0 0 -
cvm = 0, ttq = '26004000' => 1 0 1 0 1 26c04000
cvm = 0, ttq = '2e004000' => 0 0 1 0 1 2e404000

2 0
zero_allowed = false => 0 0 0 0 0 -
limit = 0 => 0 0 1 0 0 -

0 0
status_check = true, zero_allowed = false => 0 0 0 0 0 -

0 1
status_check = true, ttq = '26004000' => 1 1 0 0 0 26804000
status_check = false, ttq = '26004000' => 1 0 0 0 0 26004000
ttq = '26004000' => 1 0 0 0 0 26004000

0 2
status_check = true => 1 0 0 0 0 -

1 9
status_check = true => 1 0 0 0 0 -

1 10
status_check = true => 1 1 0 0 0 -
status_check = false => 1 0 0 0 0 -

1 11
status_check = true => 1 0 0 0 0 -

2 99
status_check = true => 1 0 0 0 0 -

2 100
status_check = true, ttq = '2e004000' => 1 1 0 0 0 2e804000
status_check = false, ttq = '2e004000' => 1 0 0 0 0 2e004000
status_check = true, limit = 100 => 0 1 0 0 0 -

2 101
status_check = true => 1 0 0 0 0 -

3 999
status_check = true => 1 0 0 0 0 -

3 1000
status_check = true => 1 1 0 0 0 -
status_check = false => 1 0 0 0 0 -

3 1001
status_check = true => 1 0 0 0 0 -

4 9999
status_check = true => 1 0 0 0 0 -

4 10000
status_check = true => 1 1 0 0 0 -
status_check = false => 1 0 0 0 0 -

4 10001
status_check = true => 1 0 0 0 0 -";

/// What is found of a Combination, as in the table.
fn found_of(rt: &(impl Abort + AllocGlobal), one: &PreparedOne) -> Result<String, Fail> {
    let truths = &one.indicators;
    let mut found = format!(in rt.alloc();
        "{} {} {} {} {} ",
        u8::from(one.is_allowed()),
        u8::from(truths.status),
        u8::from(truths.zero),
        u8::from(truths.floor),
        u8::from(truths.cvm)
    )?;
    match one.ttq {
        Some(ttq) => {
            let ttq = format!(in rt.alloc(); "{:08x}\n", u32::from_be_bytes(ttq))?;
            found.push_str(ttq.as_str())?;
        }
        None => found.push_str("-\n")?,
    }
    Ok(found)
}

/// A configuration has one Combination of another type before those of the table.
fn check_part(rt: &(impl Abort + AllocGlobal), part: &str) -> Result<(), Fail> {
    let alloc = rt.alloc();
    let (head, rows) = part.split_once('\n').expect(rt, part);
    let (exponent, amount) = head.split_once(' ').expect(rt, part);
    let amount: u64 = amount.parse().ok().expect(rt, part);
    let mut document = format!(in alloc;
        "exponent = {exponent}\ncombinations = [{{type = 1, aid = 'a0000000031010', kernel = 3}},\n"
    )?;
    let mut wanted = String::new(alloc);
    for row in rows.lines() {
        let (keys, found) = row.split_once(" => ").expect(rt, row);
        document.push_str("{type = 0, aid = 'a0000000031010', kernel = 3, ")?;
        document.push_str(keys)?;
        document.push_str("},\n")?;
        wanted.push_str(found)?;
        wanted.push_str("\n")?;
    }
    document.push_str("]")?;
    let table = toml::table_from_str(alloc, document.as_str())
        .ok()
        .expect(rt, part);
    let config = Config::of_table(alloc, &table).ok().expect(rt, part);
    let prepared = prepare(&config, 0, amount);
    let mut found = String::new(alloc);
    for one in prepared.list() {
        found.push_str(found_of(rt, one)?.as_str())?;
    }
    assert!(rt; found.as_str() == wanted.as_str(), "{part}");
    let some_allowed = wanted.as_str().lines().any(|line| line.starts_with('1'));
    assert!(rt; prepared.any_allowed() == some_allowed, "{part}");
    assert!(rt; (prepared.txn_type(), prepared.amount()) == (0, amount));
    Ok(())
}

#[test]
fn finds_of_each_combination(rt: HostRuntime) -> Result<(), Fail> {
    for part in TABLE.split("\n\n") {
        check_part(&rt, part)?;
    }
    Ok(())
}
