//! The purchase cut after each of its bytes, and a trace line cut after each of its own.

use super::cases::spelled;
use super::purchase::PURCHASE;
use super::{End, check, run};
use std::test::Fail;

/// All pieces of the purchase, each with what the document up to its end leaves: what is written, or the fault that is
/// said.
const PIECES: &str = r#"version = 1 => missing at lanes (0)
\n[[combinations]] => missing at combinations[1].type (0)
\ntype = 0 => missing at combinations[1].aid (0)
\naid = "a0000000031010" => missing at combinations[1].kernel (0)
\nkernel = 3 => missing at lanes (0)
\n[[lanes]] => missing at lanes[1].transactions (0)
\n[[lanes.transactions]] => missing at lanes[1].transactions[1].type (0)
\ntype = 0 => missing at lanes[1].transactions[1].amount (0)
\namount = 1 => <no-card-of-1>
0 => <no-card-of-10>
0 => <no-card-of-100>
0 => <no-card>
\n[[lanes.transactions.cards]] => missing at lanes[1].transactions[1].cards[1].kind (0)
\nkind = "A" => missing at lanes[1].transactions[1].cards[1].uid (0)
\nuid = "01020304" => <undirected-report>
\nppse = ["6f23840e325041592e5359532e4444463031a511bf0c0e610c4f07a00000000310108701019000"] => <other-report>
\n[[lanes.transactions.cards.apps]] => missing at lanes[1].transactions[1].cards[1].apps[1].name (0)
\nname = "a0000000031010" => missing at lanes[1].transactions[1].cards[1].apps[1].select (0)
\nselect = ["6f098407a00000000310109000"] => <unscripted-report>
\n[[lanes.transactions.cards.apps.rules]] => missing at lanes[1].transactions[1].cards[1].apps[1].rules[1].prefix (0)
\nprefix = "80a8" => missing at lanes[1].transactions[1].cards[1].apps[1].rules[1].responses (0)
\nresponses = ["80062000080101009000"] => <unscripted-report>
\n[[lanes.transactions.scripts]] => missing at lanes[1].transactions[1].scripts[1].kernel (0)
\nkernel = 3 => missing at lanes[1].transactions[1].scripts[1].outcome (0)
\nsteps = [{send = "80a8000002830000"}] => missing at lanes[1].transactions[1].scripts[1].outcome (0)
\noutcome = "approved 03" => <report>
\n => <report>"#;

/// What is written where no card is there, with amounts of 1, of 10 and of 100.
const SECTIONS: &str = r#"
%% no-card-of-1
1.1 start type=00 amount=1
1.1 pre 1 aid=a0000000031010 kernel=3 allowed=1 status=0 zero=0 floor=0 cvm=0 ttq=-
1.1 message 15 Present card
1.1 end nocard
%% no-card-of-10
1.1 start type=00 amount=10
1.1 pre 1 aid=a0000000031010 kernel=3 allowed=1 status=0 zero=0 floor=0 cvm=0 ttq=-
1.1 message 15 Present card
1.1 end nocard
%% no-card-of-100
1.1 start type=00 amount=100
1.1 pre 1 aid=a0000000031010 kernel=3 allowed=1 status=0 zero=0 floor=0 cvm=0 ttq=-
1.1 message 15 Present card
1.1 end nocard
"#;

const NOT_TOML: End = End {
    number: 6,
    said: "ep_program: not a TOML document",
    text: "",
};

/// The document so far, cut before each byte of this piece. A newline adds nothing, and within a piece there is no TOML.
fn each_cut(
    rt: &HostRuntime,
    so_far: &mut String,
    before: &End<'_>,
    piece: &str,
) -> Result<(), Fail> {
    let mut end = *before;
    for letter in piece.chars() {
        let left = run(rt, "/run", so_far.as_bytes(), &[], &[])?;
        check(rt, piece, &left, &end)?;
        so_far.push(letter)?;
        if letter != '\n' {
            end = NOT_TOML;
        }
    }
    Ok(())
}

/// The same, where the document so far leaves what a row says.
fn each_cut_after(
    rt: &HostRuntime,
    so_far: &mut String,
    before: &str,
    piece: &str,
) -> Result<(), Fail> {
    let piece = spelled(rt, SECTIONS, piece)?;
    let said = format!(in rt.alloc(); "ep_program: bad document: {before}")?;
    let text = spelled(rt, SECTIONS, before)?;
    let end = if before.starts_with('<') {
        End {
            number: 0,
            said: "",
            text: text.as_str(),
        }
    } else {
        End {
            number: 7,
            said: said.as_str(),
            text: "",
        }
    };
    each_cut(rt, so_far, &end, piece.as_str())
}

#[test]
fn each_cut_of_the_purchase(rt: HostRuntime) -> Result<(), Fail> {
    let mut so_far = String::new(rt.alloc());
    let mut before = "missing at version (0)".to_string(rt.alloc())?;
    for row in PIECES.lines() {
        let (piece, end) = row.split_once(" => ").expect(&rt, row);
        each_cut_after(&rt, &mut so_far, before.as_str(), piece)?;
        before = end.to_string(rt.alloc())?;
    }
    assert!(rt; before.as_str() == ("<report>"));
    let purchase = spelled(&rt, SECTIONS, PURCHASE)?;
    assert!(rt; so_far.as_str() == purchase.as_str());
    Ok(())
}

/// A trace line that is cut has no form. Its fault stands at its element, with the length of what is left of it.
#[test]
fn each_cut_of_a_trace_line(rt: HostRuntime) -> Result<(), Fail> {
    let line = "x 1 A 500057cd 0 -";
    let purchase = spelled(&rt, SECTIONS, PURCHASE)?;
    for length in 0..line.len() {
        let cut = line.get(..length).ok_or("no cut")?;
        let document = format!(in rt.alloc();
            "trace = [\"x 1 S 52 0 -\", \"{cut}\"]\n{}",
            purchase.as_str()
        )?;
        let left = run(&rt, "/run", document.as_bytes(), &[], &[])?;
        let said = format!(in rt.alloc();
            "ep_program: bad document: bad-value at trace[2] ({length})"
        )?;
        let end = End {
            number: 7,
            said: said.as_str(),
            text: "",
        };
        check(&rt, cut, &left, &end)?;
    }
    Ok(())
}
