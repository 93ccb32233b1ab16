//! Lists of fates and of cards that are present: what they say, and where the first fault is. The clauses say that the
//! definitions are met; these rows say what the definitions mean.
//!
//! A row is a document, and after `=>` what is read, or the first fault. A row of cards that are present has before that
//! how many cards there are.

use crate::rows::{spelled, table, told_end};
use doc_table::{Path, Section};
use fate_table::{fates_of, presence_of};
use std::alloc::AllocGlobal;
use std::process::Abort;
use std::test::Fail;

const FATES: &str = r#"
 => []
fates = [] => []
fates = [1, 1000000] => [Clean(1), Clean(1000000)]
fates = ['- -', 3, 'x -', 'v -', '- x'] => [One(Fate { down: Pass, up: Pass }), Clean(3), One(Fate { down: Lose, up: Pass }), One(Fate { down: Leave, up: Pass }), One(Fate { down: Pass, up: Lose })]
fates = ['- b0:0001', 'b4095:ffff x', 'b0012:0aB0 v'] => [One(Fate { down: Pass, up: Burst(Burst { start: 0, mask: 1 }) }), One(Fate { down: Burst(Burst { start: 4095, mask: 65535 }), up: Lose }), One(Fate { down: Burst(Burst { start: 12, mask: 2736 }), up: Leave })]
fates = 1 => WrongKind fates 0
fates = '- -' => WrongKind fates 0
fates = {} => WrongKind fates 0
fates = [true] => WrongKind fates[1] 0
fates = ['- -', 1.0, 0] => WrongKind fates[2] 0
fates = [1, [1]] => WrongKind fates[2] 0
fates = [0, true] => BadValue fates[1] 0
fates = [-1] => BadValue fates[1] -1
fates = [1000000, 1000001] => BadValue fates[2] 1000001
fates = [''] => BadValue fates[1] 0
fates = ['-'] => BadValue fates[1] 1
fates = ['-  -'] => BadValue fates[1] 4
fates = ['- - '] => BadValue fates[1] 4
fates = [' - -'] => BadValue fates[1] 4
fates = ['- - -'] => BadValue fates[1] 5
fates = ['-- -'] => BadValue fates[1] 4
fates = ['X -'] => BadValue fates[1] 3
fates = ['é -'] => BadValue fates[1] 4
fates = ['b4096:0000 -'] => BadValue fates[1] 12
fates = ['b9999:0000 -'] => BadValue fates[1] 12
fates = ['b:0000 -'] => BadValue fates[1] 8
fates = ['b00001:0000 -'] => BadValue fates[1] 13
fates = ['b+1:0000 -'] => BadValue fates[1] 10
fates = ['bf:0000 -'] => BadValue fates[1] 9
fates = ['- B0:0000'] => BadValue fates[1] 9
fates = ['- b0:000'] => BadValue fates[1] 8
fates = ['- b0:00000'] => BadValue fates[1] 10
fates = ['- b0:000g'] => BadValue fates[1] 9
fates = ['- b0:0x01'] => BadValue fates[1] 9
fates = ['- b0'] => BadValue fates[1] 4
fates = ['- b0::0000'] => BadValue fates[1] 10
fates = ['- 0:0000'] => BadValue fates[1] 8
fates = [<4097:true,>] => TooMany fates 4097
fates = [<4096:7,>] => [<4095:Clean(7), >Clean(7)]"#;

const PRESENT: &str = r#"
4 |  => .
0 | presence = [] => .
0 | presence = [[]] => [].
2 | presence = [[1, 2], [], [2]] => [1, 2][][2].
4 | presence = [[4, 4, 1, 4]] => [4, 4, 1, 4].
2 | presence = 1 => WrongKind presence 0
2 | presence = {} => WrongKind presence 0
2 | presence = [1] => WrongKind presence 0
2 | presence = ['1'] => WrongKind presence 0
2 | presence = [[true]] => WrongKind presence 0
2 | presence = [[1.0]] => WrongKind presence 0
2 | presence = [[9], [1, 1, 1, 1, 1], [[1]]] => WrongKind presence 0
2 | presence = [<65:['1'],>] => WrongKind presence 0
1 | presence = [[1, 1, 1, 1, 1]] => TooMany presence[1] 5
1 | presence = [[1], [9, 9, 9, 9, 9, 9]] => TooMany presence[2] 6
2 | presence = [[3]] => BadValue presence[1][1] 3
2 | presence = [[0]] => BadValue presence[1][1] 0
0 | presence = [[1]] => BadValue presence[1][1] 1
4 | presence = [[4], [1, -2]] => BadValue presence[2][2] -2
4 | presence = [[1, 5], [1, 1, 1, 1, 1]] => BadValue presence[1][2] 5
1 | presence = [[257]] => BadValue presence[1][1] 257
1 | presence = [<65:[9, 9, 9, 9, 9],>] => TooMany presence 65
2 | presence = [<64:[2],>] => <64:[2]>."#;

/// The fates of a document, as in a row.
fn told_fates(rt: &(impl Abort + AllocGlobal), document: &str) -> Result<String, Fail> {
    let table = table(rt, document);
    let path = Path::root();
    match fates_of(rt.alloc(), &Section::unchecked(&path, &table)) {
        Ok(runs) => Ok(format!(in rt.alloc(); "{:?}", runs.as_slice())?),
        Err(end) => told_end(rt, &end),
    }
}

/// The cards that are present in a document with so many cards, as in a row.
fn told_lists(
    rt: &(impl Abort + AllocGlobal),
    document: &str,
    cards: usize,
) -> Result<String, Fail> {
    assert!(rt; cards <= 4);
    let table = table(rt, document);
    let path = Path::root();
    let lists = match presence_of(rt.alloc(), &Section::unchecked(&path, &table), cards) {
        Ok(lists) => lists,
        Err(end) => return told_end(rt, &end),
    };
    let mut told = String::new(rt.alloc());
    for list in &lists {
        told.push_str(format!(in rt.alloc(); "{:?}", list.as_slice())?.as_str())?;
    }
    told.push_str(".")?;
    Ok(told)
}

#[test]
fn fates(rt: HostRuntime) -> Result<(), Fail> {
    for row in FATES.lines().skip(1) {
        let (document, wanted) = row.split_once(" => ").expect(&rt, row);
        let found = told_fates(&rt, spelled(&rt, document)?.as_str())?;
        assert!(rt; found.as_str() == spelled(&rt, wanted)?.as_str(), "{row}");
    }
    Ok(())
}

#[test]
fn cards_that_are_present(rt: HostRuntime) -> Result<(), Fail> {
    for row in PRESENT.lines().skip(1) {
        let (cards, rest) = row.split_once(" | ").expect(&rt, row);
        let (document, wanted) = rest.split_once(" => ").expect(&rt, row);
        let cards: usize = cards.parse().ok().expect(&rt, row);
        let found = told_lists(&rt, spelled(&rt, document)?.as_str(), cards)?;
        assert!(rt; found.as_str() == spelled(&rt, wanted)?.as_str(), "{row}");
    }
    Ok(())
}
