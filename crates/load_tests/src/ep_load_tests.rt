//! A load of one transaction, and the largest one.

use card_table::TypePlan;
use ep_base::{Message, OutcomeKind};
use ep_load::{generate, plan};
use kernel_port::Outcome;
use rf_field::{Fate, FateRun, Way};
use scenario::Transaction;
use std::process::Abort;
use std::test::Fail;

/// A card of Type A with the first Combination's application, and no S(WTX).
fn check_card(rt: &impl Abort, transaction: &Transaction) {
    assert!(rt; transaction.cards.len() == 1);
    for card in &transaction.cards {
        match &card.plan {
            TypePlan::A(plan) => {
                assert!(rt; plan.uid.as_slice() == b"\x08\x00\x00\x01".as_slice());
                assert!(rt; (plan.sak, plan.fsci, plan.fwi) == (0x20, 1, 4));
            }
            TypePlan::B(_) => assert!(rt; false),
        }
        for response in &card.ppse {
            let wanted =
                b"\x6f\x23\x84\x0e2PAY.SYS.DDF01\xa5\x11\xbf\x0c\x0e\x61\x0c\x4f\x07\xa0\x00\x00\x00\x03\x10\x10\x87\x01\x01\x90\x00";
            assert!(rt; response.bytes() == wanted.as_slice());
        }
        for app in &card.apps {
            assert!(rt; app.name.as_slice() == b"\xa0\x00\x00\x00\x03\x10\x10".as_slice());
            for rule in &app.rules {
                assert!(rt; (rule.wtx, rule.wtxm) == (0, 1));
            }
        }
        assert!(rt; (card.ppse.len(), card.apps.len()) == (1, 1));
    }
}

/// Eight clean exchanges, a lost answer, three clean exchanges and a lost frame.
fn check_fates(rt: &impl Abort, transaction: &Transaction) {
    let answer_lost = Fate {
        down: Way::Pass,
        up: Way::Lose,
    };
    let frame_lost = Fate {
        down: Way::Lose,
        up: Way::Pass,
    };
    let wanted = [
        FateRun::Clean(8),
        FateRun::One(answer_lost),
        FateRun::Clean(3),
        FateRun::One(frame_lost),
    ];
    assert!(rt; transaction.fates.len() == 4);
    for (found, wanted) in transaction.fates.iter().zip(&wanted) {
        assert!(rt; *found == *wanted);
    }
}

/// Two scripts of the first Combination's kernel: the card is presented once more, and then approved.
fn check_scripts(rt: &impl Abort, transaction: &Transaction) {
    let again = Outcome {
        kind: OutcomeKind::TryAgain,
        message: Some(Message::PresentAgain),
    };
    let approved = Outcome {
        kind: OutcomeKind::Approved,
        message: Some(Message::Approved),
    };
    assert!(rt; transaction.scripts.len() == 2);
    for (script, wanted) in transaction.scripts.iter().zip(&[again, approved]) {
        assert!(rt; (script.kernel, script.steps.len()) == (3, 1));
        assert!(rt; script.outcome == *wanted);
    }
}

#[test]
fn one_transaction_of_seed_1(rt: HostRuntime) -> Result<(), Fail> {
    let document = plan(rt.alloc(), 1, 1)?;
    assert!(rt; document.lanes.len() == 1);
    for lane in &document.lanes {
        assert!(rt; lane.len() == 1);
        for transaction in lane {
            assert!(rt; (transaction.txn_type, transaction.amount) == (0, 6938));
            assert!(rt; transaction.presence.is_empty());
            check_card(&rt, transaction);
            check_fates(&rt, transaction);
            check_scripts(&rt, transaction);
        }
    }
    Ok(())
}

#[test]
fn scenario_of_seed_1(rt: HostRuntime) -> Result<(), Fail> {
    let scenario = generate(rt.alloc(), 1, 1)?;
    assert!(rt; (scenario.config.exponent(), scenario.fsdi) == (2, 8));
    assert!(rt; scenario.config.list().len() == 3);
    assert!(rt; scenario.turns.is_empty());
    assert!(rt; scenario.trace.is_none());
    assert!(rt; scenario.lanes.len() == 1);
    for lane in &scenario.lanes {
        assert!(rt; lane.len() == 1);
        for job in lane {
            assert!(rt; (job.txn_type, job.amount) == (0, 6938));
            assert!(rt; job.field.exchanges() == 0);
        }
    }
    Ok(())
}

#[test]
fn four_hundred_transactions(rt: HostRuntime) -> Result<(), Fail> {
    let scenario = generate(rt.alloc(), 7, 400)?;
    assert!(rt; scenario.lanes.len() == 8);
    for lane in &scenario.lanes {
        assert!(rt; lane.len() == 50);
    }
    Ok(())
}

/// The amounts of ten transactions, lane by lane: the first two lanes have a second one.
#[test]
fn lanes_of_seed_7(rt: HostRuntime) -> Result<(), Fail> {
    let scenario = generate(rt.alloc(), 7, 10)?;
    let mut amounts = String::new(rt.alloc());
    for lane in &scenario.lanes {
        for job in lane {
            amounts.push_str(format!(in rt.alloc(); "{} ", job.amount)?.as_str())?;
        }
        amounts.push_str("| ")?;
    }
    assert!(rt;
        amounts.as_str() == "9664 9704 | 8085 5380 | 4285 | 8161 | 6918 | 155 | 5550 | 1286 | "
    );
    Ok(())
}
