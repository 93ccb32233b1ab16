//! A card that is asked for its directory, its application, and what a rule answers.
ghost use Rattle.std.specs.Prelude.{◌≡◌, length};
ghost use Rattle.ep_base.specs.Cards.CardAnswer.{AreAnswers, IsApp, IsRule, unused};

use apdu::{Command, Response};
use arrayvec::ArrayVec;
use card_image::{App, CardImage, CardLog, Rule};
use std::process::Abort;

const SELECT_PPSE: &[u8] = b"\x00\xa4\x04\x00\x0e2PAY.SYS.DDF01\x00";

const SELECT_APP: &[u8] = b"\x00\xa4\x04\x00\x07\xa0\x00\x00\x00\x03\x10\x10\x00";

const SELECT_OTHER: &[u8] = b"\x00\xa4\x04\x00\x06\xa0\x00\x00\x00\x03\x10";

const GET_OPTIONS: &[u8] = b"\x80\xa8\x00\x00\x02\x83\x00\x00";

const READ_RECORD: &[u8] = b"\x00\xb2\x01\x0c\x00";

// The commands in their order.
const COMMANDS: [&[u8]; 11] = [
    GET_OPTIONS,
    SELECT_PPSE,
    SELECT_PPSE,
    SELECT_PPSE,
    SELECT_OTHER,
    SELECT_APP,
    GET_OPTIONS,
    GET_OPTIONS,
    READ_RECORD,
    SELECT_APP,
    GET_OPTIONS,
];

fn responses(rt: &(impl Abort + AllocGlobal), first: &[u8], second: &[u8]) -> Vec<Response>
    ensures few { AreAnswers (unused result.items) }
    ensures some { length result.items ≡ 2 }
{
    let (Ok(first), Ok(second)) = (Response::of(first), Response::of(second)) else {
        panic!(rt; "no response");
    };
    let mut list = Vec::new(rt.alloc());
    list.push(first).ok().expect(rt, "memory");
    list.push(second).ok().expect(rt, "memory");
    list
}

fn rule(rt: &(impl Abort + AllocGlobal)) -> Rule
    ensures { IsRule result }
{
    Rule {
        prefix: b"\x80\xa8".to_vec(rt.alloc()).ok().expect(rt, "memory"),
        responses: responses(rt, b"\x01\x02\x90\x00", b"\x03\x04\x90\x00"),
        wtx: 2,
        wtxm: 3,
    }
}

fn app(rt: &(impl Abort + AllocGlobal)) -> App
    ensures { IsApp result }
{
    let mut rules = Vec::new(rt.alloc());
    rules.push(rule(rt)).ok().expect(rt, "memory");
    App {
        name: ArrayVec::try_from(b"\xa0\x00\x00\x00\x03\x10\x10".as_slice()).unwrap(),
        select: responses(rt, b"\x6f\x00\x90\x00", b"\x6a\x81"),
        wtx: 1,
        wtxm: 59,
        rules,
    }
}

/// A card with a log.
#[derive(Drop)]
struct Asked {
    image: CardImage,
    log: CardLog,
}

fn answering(rt: &(impl Abort + AllocGlobal)) -> Asked {
    let ppse = responses(rt, b"\x6f\x23\x90\x00", b"\x90\x00");
    let mut apps = Vec::new(rt.alloc());
    apps.push(app(rt)).ok().expect(rt, "memory");
    let Ok(image) = CardImage::open(rt.alloc(), 3, ppse, apps) else {
        panic!(rt; "memory");
    };
    let log = CardLog::open(rt.alloc(), 12).ok().expect(rt, "memory");
    Asked { image, log }
}

// One command: its response, and how often which time is asked for.
fn answers(rt: &impl Abort, card: &mut Asked, bytes: &[u8], wanted: &[u8], wtx: u8, wtxm: u8) {
    assert!(rt; card.log.spare() > 0);
    let Ok(command) = Command::of(bytes) else {
        panic!(rt; "no command");
    };
    let answered = card.image.answer(&command, &mut card.log);
    assert!(rt; answered.response.bytes() == wanted, "to {bytes:?}");
    assert!(rt;
        (answered.wtx, answered.wtxm) == (wtx, wtxm),
        "to {bytes:?}"
    );
}

// Compares the log.
fn lists(rt: &impl Abort, log: &CardLog) {
    assert!(rt; (log.records().len(), log.spare()) == (11, 1));
    for (record, bytes) in log.records().iter().zip(COMMANDS) {
        assert!(rt; (record.card, record.command.bytes()) == (3, bytes));
    }
}

#[test]
fn answers_in_turn_and_lists_each_command(rt: HostRuntime) {
    let mut card = answering(&rt);
    answers(&rt, &mut card, GET_OPTIONS, b"\x69\x85", 0, 1);
    answers(&rt, &mut card, SELECT_PPSE, b"\x6f\x23\x90\x00", 0, 1);
    answers(&rt, &mut card, SELECT_PPSE, b"\x90\x00", 0, 1);
    answers(&rt, &mut card, SELECT_PPSE, b"\x90\x00", 0, 1);
    answers(&rt, &mut card, SELECT_OTHER, b"\x6a\x82", 0, 1);
    answers(&rt, &mut card, SELECT_APP, b"\x6f\x00\x90\x00", 1, 59);
    answers(&rt, &mut card, GET_OPTIONS, b"\x01\x02\x90\x00", 2, 3);
    answers(&rt, &mut card, GET_OPTIONS, b"\x03\x04\x90\x00", 2, 3);
    answers(&rt, &mut card, READ_RECORD, b"\x6d\x00", 0, 1);
    answers(&rt, &mut card, SELECT_APP, b"\x6a\x81", 1, 59);
    answers(&rt, &mut card, GET_OPTIONS, b"\x69\x85", 0, 1);
    assert!(rt; card.image.number() == 3);
    lists(&rt, &card.log);
    card.image.reset_selection();
}
