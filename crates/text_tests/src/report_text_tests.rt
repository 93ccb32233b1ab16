//! Reports that were worked out by hand.
ghost use Rattle.std.specs.Prelude.{◌≡◌, ◌++◌, ◌∷◌, [], codes};
ghost use Rattle.ep_claim.specs.Text.WrittenText.{lane_text};
ghost use Rattle.report_text.specs.Worked.{purchase};

use acquirer_config::Combination;
use apdu::{Command, Response};
use arrayvec::{ArrayString, ArrayVec};
use card_image::Record;
use doc_table::{DocFault, DocKind};
use ep_base::{Buf, COMMAND, CardKind, Line, Message, OutcomeKind, RESPONSE};
use kernel_port::{Activation, End, Event};
use pre_processing::{Indicators, PreparedOne};
use report_text::{document_fault, line_of, log_line};
use std::process::Abort;

const NAME: [u8; 7] = [0xa0, 0x00, 0x00, 0x00, 0x03, 0x10, 0x10];

const NOTHING: Indicators = Indicators {
    not_allowed: false,
    status: false,
    zero: false,
    floor: false,
    cvm: false,
};

fn is_shown(rt: &impl Abort, event: &Event, head: &str, want: &str) {
    let mut line = Line::new();
    line_of(8, 64, event, &mut line);
    let rest = line
        .as_str()
        .strip_prefix("8.64 ")
        .expect(rt, "the numbers of lane and transaction");
    let rest = rest.strip_prefix(head).expect(rt, "the word of the event");
    assert!(rt; rest.strip_suffix("\n") == Some(want));
}

fn buffer<const N: usize>(rt: &impl Abort, bytes: &[u8]) -> Buf<N> {
    ArrayVec::try_from(bytes).expect(rt, "bytes that fit")
}

fn pre(rt: &impl Abort, indicators: Indicators, ttq: Option<[u8; 4]>) -> Event {
    let combination = Combination {
        txn_type: 0,
        aid: buffer(rt, &NAME),
        kernel: 3,
        status_check: false,
        zero_allowed: None,
        limit: None,
        floor: None,
        terminal_floor: None,
        cvm: None,
        extended: false,
        ttq,
    };
    Event::Pre {
        number: 1,
        one: PreparedOne {
            combination,
            indicators,
            ttq,
        },
    }
}

fn start(txn_type: u8, amount: u64) -> Event {
    Event::Start { txn_type, amount }
}

fn card(rt: &impl Abort, kind: CardKind, id: &[u8]) -> Event {
    Event::Card {
        kind,
        id: buffer(rt, id),
    }
}

fn answered(rt: &impl Abort, command: &[u8], response: &[u8]) -> Event {
    Event::Apdu {
        command: Command::of(command).expect(rt, "a command"),
        response: Response::of(response).expect(rt, "a response"),
    }
}

fn activation(rt: &impl Abort, ttq: Option<[u8; 4]>, fci: &[u8]) -> Event {
    Event::Activate(Activation {
        kernel: 3,
        combination: 1,
        name: buffer(rt, &NAME),
        indicators: NOTHING,
        ttq,
        fci: buffer(rt, fci),
    })
}

/// The words of the messages below, line by line.
const MESSAGES: &str = "\
03 Approved
07 Not authorised
15 Present card
16 Processing
17 Card read OK
18 Please insert or swipe card
19 Please present one card only
1c Insert, swipe or try another card
21 Present card again";

/// The words of the outcomes below, line by line.
const OUTCOMES: &str = "\
select-next
try-again
approved
declined
online
try-another
end";

/// The words of the ends below, line by line.
const ENDS: &str = "\
done
link
nocard
breach";

#[test]
fn words_of_messages(rt: HostRuntime) {
    let messages = [
        Message::Approved,
        Message::NotAuthorised,
        Message::PresentCard,
        Message::Processing,
        Message::ReadOk,
        Message::InsertOrSwipe,
        Message::OneCardOnly,
        Message::TryAnotherCard,
        Message::PresentAgain,
    ];
    assert!(rt; MESSAGES.lines().count() == messages.len());
    for (message, want) in messages.iter().zip(MESSAGES.lines()) {
        is_shown(&rt, &Event::Message(*message), "message ", want);
    }
}

#[test]
fn words_of_outcomes(rt: HostRuntime) {
    let kinds = [
        OutcomeKind::SelectNext,
        OutcomeKind::TryAgain,
        OutcomeKind::Approved,
        OutcomeKind::Declined,
        OutcomeKind::OnlineRequest,
        OutcomeKind::TryAnother,
        OutcomeKind::EndApplication,
    ];
    assert!(rt; OUTCOMES.lines().count() == kinds.len());
    for (kind, want) in kinds.iter().zip(OUTCOMES.lines()) {
        is_shown(&rt, &Event::Outcome(*kind), "outcome ", want);
    }
}

#[test]
fn words_of_ends(rt: HostRuntime) {
    let ends = [End::Done, End::Link, End::NoCard, End::Breach];
    assert!(rt; ENDS.lines().count() == ends.len());
    for (end, want) in ends.iter().zip(ENDS.lines()) {
        is_shown(&rt, &Event::End(*end), "end ", want);
    }
}

/// What is shown of the first Combination with these truths and this TTQ.
fn is_found(rt: &impl Abort, indicators: Indicators, ttq: Option<[u8; 4]>, want: &str) {
    let event = pre(rt, indicators, ttq);
    is_shown(rt, &event, "pre 1 aid=a0000000031010 kernel=3 ", want);
}

#[test]
fn truths_of_combinations(rt: HostRuntime) {
    let cvm = Indicators {
        cvm: true,
        ..NOTHING
    };
    let refused = Indicators {
        not_allowed: true,
        zero: true,
        ..NOTHING
    };
    let checked = Indicators {
        status: true,
        floor: true,
        ..NOTHING
    };
    let nothing = "allowed=1 status=0 zero=0 floor=0 cvm=0 ttq=-";
    is_found(&rt, NOTHING, None, nothing);
    let with_cvm = "allowed=1 status=0 zero=0 floor=0 cvm=1 ttq=36404000";
    is_found(&rt, cvm, Some([0x36, 0x40, 0x40, 0x00]), with_cvm);
    let not_allowed = "allowed=0 status=0 zero=1 floor=0 cvm=0 ttq=2e004000";
    is_found(&rt, refused, Some([0x2e, 0x00, 0x40, 0x00]), not_allowed);
    let with_floor = "allowed=1 status=1 zero=0 floor=1 cvm=0 ttq=-";
    is_found(&rt, checked, None, with_floor);
}

#[test]
fn activations(rt: HostRuntime) {
    let fci = b"\x6f\x09\x84\x07\xa0\x00\x00\x00\x03\x10\x10";
    let with_fci = activation(&rt, None, fci);
    let with_ttq = activation(&rt, Some([0x36, 0x80, 0x40, 0x00]), b"");
    let head = "activate 3 combination=1 name=a0000000031010 ";
    is_shown(&rt, &with_fci, head, "ttq=- fci=6f098407a0000000031010");
    is_shown(&rt, &with_ttq, head, "ttq=36804000 fci=");
}

#[test]
fn numbers_and_bytes(rt: HostRuntime) {
    is_shown(&rt, &start(0, 1000), "start ", "type=00 amount=1000");
    let most = start(0x9f, 999_999_999_999);
    is_shown(&rt, &most, "start ", "type=9f amount=999999999999");
    let of_a = card(&rt, CardKind::A, b"\x04\x11\x22\x33\x44\x55\x66");
    is_shown(&rt, &of_a, "card A ", "04112233445566");
    let of_b = card(&rt, CardKind::B, b"\x11\x22\x33\x44");
    is_shown(&rt, &of_b, "card B ", "11223344");
    let directory = b"\x00\xa4\x04\x00\x0e2PAY.SYS.DDF01\x00";
    let select = answered(&rt, directory, b"\x6a\x82");
    let want = "325041592e5359532e444446303100 6a82";
    is_shown(&rt, &select, "apdu 00a404000e", want);
    is_shown(&rt, &Event::Candidates(10), "candidates ", "10");
}

#[test]
fn the_longest_line(rt: HostRuntime) {
    let event = answered(&rt, &[0xff; COMMAND], &[0xff; RESPONSE]);
    let mut line = Line::new();
    line_of(255, 255, &event, &mut line);
    assert!(rt; line.len() == 1053);
}

#[test]
fn records_of_a_log(rt: HostRuntime) {
    let entry = Record {
        card: 4,
        command: Command::of(b"\x80\xa8\x00\x00\x02\x83\x00\x00").expect(&rt, "a command"),
    };
    let mut line = Line::new();
    log_line(1, 12, &entry, &mut line);
    assert!(rt; line.as_str() == "1.12 log 4 80a8000002830000\n");
}

/// The path and the number of the faults below, and after `=>` what is said.
const FAULTS: &str = "\
version 2 => bad-value at version (2)
version 0 => missing at version (0)
lanes[1].transactions[1].amount 1000000000000 => bad-value at lanes[1].transactions[1].amount (1000000000000)
. 3 => unknown-key at . (3)
trace 0 => wrong-kind at trace (0)
lanes 9 => too-many at lanes (9)
turns[2] -1 => conflict at turns[2] (-1)
updates -9223372036854775808 => conflict at updates (-9223372036854775808)";

/// What is said of a fault of this kind, by a row.
fn is_said(rt: &impl Abort, kind: DocKind, row: &str) {
    let (place, want) = row.split_once(" => ").expect(rt, row);
    let (path, number) = place.split_once(' ').expect(rt, row);
    let path = ArrayString::from(path).expect(rt, row);
    let number: i64 = number.parse().ok().expect(rt, row);
    let mut line = Line::new();
    document_fault(&DocFault { kind, path, number }, &mut line);
    let said = line.as_str().strip_prefix("ep_program: bad document: ");
    assert!(rt; said == Some(want));
}

#[test]
fn faults_of_documents(rt: HostRuntime) {
    let kinds = [
        DocKind::BadValue,
        DocKind::Missing,
        DocKind::BadValue,
        DocKind::UnknownKey,
        DocKind::WrongKind,
        DocKind::TooMany,
        DocKind::Conflict,
        DocKind::Conflict,
    ];
    assert!(rt; FAULTS.lines().count() == kinds.len());
    for (kind, row) in kinds.iter().zip(FAULTS.lines()) {
        is_said(&rt, *kind, row);
    }
}

// The report of a lane that makes the same purchase twice.
fn report_of_a_lane()
    ensures { lane_text 1 (purchase ∷ purchase ∷ []) ≡
        codes "1.1 start type=00 amount=1000\n"
        ++ codes "1.1 pre 1 aid=a0000000031010 kernel=3 allowed=1 status=0 zero=0 floor=0 cvm=0 ttq=-\n"
        ++ codes "1.1 message 15 Present card\n"
        ++ codes "1.1 card A 01020304\n"
        ++ codes "1.1 apdu 00a404000e325041592e5359532e444446303100 6f23840e325041592e5359532e4444463031a511bf0c0e610c4f07a00000000310108701019000\n"
        ++ codes "1.1 candidates 1\n"
        ++ codes "1.1 apdu 00a4040007a000000003101000 6f098407a00000000310109000\n"
        ++ codes "1.1 activate 3 combination=1 name=a0000000031010 ttq=- fci=6f098407a0000000031010\n"
        ++ codes "1.1 apdu 80a8000002830000 80062000080101009000\n"
        ++ codes "1.1 outcome approved\n"
        ++ codes "1.1 message 03 Approved\n"
        ++ codes "1.1 end done\n"
        ++ codes "1.1 log 1 00a404000e325041592e5359532e444446303100\n"
        ++ codes "1.1 log 1 00a4040007a000000003101000\n"
        ++ codes "1.1 log 1 80a8000002830000\n"
        ++ codes "1.2 start type=00 amount=1000\n"
        ++ codes "1.2 pre 1 aid=a0000000031010 kernel=3 allowed=1 status=0 zero=0 floor=0 cvm=0 ttq=-\n"
        ++ codes "1.2 message 15 Present card\n"
        ++ codes "1.2 card A 01020304\n"
        ++ codes "1.2 apdu 00a404000e325041592e5359532e444446303100 6f23840e325041592e5359532e4444463031a511bf0c0e610c4f07a00000000310108701019000\n"
        ++ codes "1.2 candidates 1\n"
        ++ codes "1.2 apdu 00a4040007a000000003101000 6f098407a00000000310109000\n"
        ++ codes "1.2 activate 3 combination=1 name=a0000000031010 ttq=- fci=6f098407a0000000031010\n"
        ++ codes "1.2 apdu 80a8000002830000 80062000080101009000\n"
        ++ codes "1.2 outcome approved\n"
        ++ codes "1.2 message 03 Approved\n"
        ++ codes "1.2 end done\n"
        ++ codes "1.2 log 1 00a404000e325041592e5359532e444446303100\n"
        ++ codes "1.2 log 1 00a4040007a000000003101000\n"
        ++ codes "1.2 log 1 80a8000002830000\n" }
{}
