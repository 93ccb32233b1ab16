//! A Combination, and a card that has no directory: what tests of lanes take, here and in `run_tests`.
ghost use Rattle.ep_rules.specs.EntryPoint.Configuration.{IsCombination};
ghost use Rattle.rf_field.specs.Plans.{PlanFits};

use acquirer_config::Combination;
use arrayvec::ArrayVec;
use card_image::CardImage;
use ep_base::Buf;
use rf_field::{APlan, CardPlan, Field};
use std::alloc::Global;
use std::test::Fail;

/// A Combination of type 00 without limits.
pub fn combination() -> Combination
    ensures { IsCombination result }
{
    Combination {
        txn_type: 0,
        aid: ArrayVec::try_from(b"\xa0\x00\x00\x00\x03\x10\x10".as_slice()).unwrap(),
        kernel: 3,
        status_check: false,
        zero_allowed: None,
        limit: None,
        floor: None,
        terminal_floor: None,
        cvm: None,
        extended: false,
        ttq: None,
    }
}

fn plan(image: CardImage) -> CardPlan
    ensures { PlanFits result }
{
    let plan = APlan {
        uid: ArrayVec::try_from(b"\x01\x02\x03\x04".as_slice()).unwrap(),
        sak: 0x20,
        fsci: 8,
        fwi: 4,
        historical: Buf::<15>::new(),
    };
    CardPlan::A(plan, image)
}

/// A card without a directory, alone in a field. The log has room for 60 records.
pub fn field(alloc: Global) -> Result<Field, Fail> {
    let Ok(image) = CardImage::open(alloc, 1, Vec::new(alloc), Vec::new(alloc)) else {
        return Err("memory".into());
    };
    let mut cards = Vec::new(alloc);
    cards.push(plan(image))?;
    let Ok(field) = Field::open(alloc, cards, Vec::new(alloc), Vec::new(alloc), 60) else {
        return Err("memory".into());
    };
    Ok(field)
}
