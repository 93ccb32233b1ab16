//! Words that are no form, and loads: their line, and an input that is left alone.

use super::cases::spelled;
use super::purchase::PURCHASE;
use super::{End, check, run};
use ep_base::{Pulled, Source, read_all};
use std::test::Fail;

/// What the load of seed 1 with one transaction writes.
pub const LOAD: &str =
    "load seed=1 count=1 approved=1 declined=0 online=0 ended=0 link=0 nocard=0 apdus=6 executed=6 exchanges=25\n";

/// Words of that load.
const LOADS: &str = "\
/load/1/1
/load/000000001/000000001";

/// Words that are no form. The first row has none.
const REFUSED: &str =
    "@@NL@@/run/fast@@NL@@/replay/fast@@NL@@/check/fast@@NL@@/inventory/fast@@NL@@/load/1/0@@NL@@/load/1/401@@NL@@/load/1/0000000001@@NL@@/load/0000000001/1@@NL@@/load//1@@NL@@/load/1/@@NL@@/load/+1/1@@NL@@/load/1a/1@@NL@@/load/1/-1@@NL@@/load/1@@NL@@/load/1/1/1@@NL@@/Load/1/1";

/// Neither words that are no form nor a load ask for the input, of which the first pull fails.
fn check_words(
    rt: &HostRuntime,
    rows: &str,
    input: &[u8],
    number: u8,
    said: &str,
    text: &str,
) -> Result<(), Fail> {
    let end = End { number, said, text };
    for words in rows.lines() {
        let left = run(rt, words, input, &[1], &[])?;
        check(rt, words, &left, &end)?;
    }
    Ok(())
}

#[test]
fn words_without_input(rt: HostRuntime) -> Result<(), Fail> {
    let usage = "ep_program: usage: run / run trace / replay / load SEED COUNT / check / inventory";
    let document = spelled(&rt, "", PURCHASE)?;
    check_words(&rt, LOADS, document.as_bytes(), 0, "", LOAD)?;
    check_words(&rt, LOADS, b"a=", 0, "", LOAD)?;
    check_words(&rt, REFUSED, document.as_bytes(), 4, usage, "")?;
    check_words(&rt, REFUSED, b"a=", 4, usage, "")
}

/// The largest load comes to the same line once more, whose first words are those that were given.
#[test]
fn a_load_comes_to_one_line(rt: HostRuntime) -> Result<(), Fail> {
    let first = run(&rt, "/load/7/400", b"", &[1], &[])?;
    let text = std::str::from_utf8(first.sink.written())?;
    assert!(rt;
        text.starts_with("load seed=7 count=400 approved="),
        "{text}"
    );
    check_words(&rt, "/load/7/400\n/load/7/400", b"", 0, "", text)
}

/// The first pull of the input fails, and it is still to come after a load; then all bytes are there.
#[test]
fn the_input_is_left_alone(rt: HostRuntime) -> Result<(), Fail> {
    let mut left = run(&rt, "/load/1/1", b"a=", &[1], &[])?;
    let mut first = [0u8; 8];
    assert!(rt; left.source.pull(&mut first) == Pulled::Failed);
    let rest = read_all(rt.alloc(), &mut left.source, 8).map_err(|_| "rest")?;
    assert!(rt; rest.as_slice() == b"a=".as_slice());
    Ok(())
}
