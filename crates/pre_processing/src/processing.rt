//! Pre-Processing.
ghost use Rattle.std.specs.Prelude.{◌≡◌, ◌<◌, ◌≤◌, IfSome};
ghost use Rattle.ep_rules.specs.EntryPoint.PreProcessing.{reaches, exceeds, floor_limit, refuses_zero, is_offline_only, is_zero, indicators, needs_online, second_byte, marked, prepared_one, prepared};

use crate::{Indicators, Prepared, PreparedOne};
use acquirer_config::{Combination, Config};
use arrayvec::ArrayVec;

/// Each Combination of a transaction type, in the configuration's order, with what holds of it for an amount in minor
/// units (EMV Book B, Start A). This takes no memory.
pub fn prepare(config: &Config, txn_type: u8, amount: u64) -> Prepared
    ensures list { result.list ≡ prepared config.now txn_type amount }
    ensures txn_type { result.txn_type ≡ txn_type }
    ensures amount { result.amount ≡ amount }
{
    let exponent = config.exponent();
    let combinations = config.list();
    let mut list = ArrayVec::new();
    for combination in combinations {
        if combination.txn_type == txn_type {
            list.push(prepare_one(exponent, amount, combination));
        }
    }
    Prepared::of(txn_type, amount, list)
}

// What holds of a Combination.
fn prepare_one(exponent: u8, amount: u64, combination: &Combination) -> PreparedOne
    requires { exponent ≤ 4 }
    ensures { result ≡ prepared_one exponent amount combination.now }
{
    let indicators = indicators_of(exponent, amount, combination);
    PreparedOne {
        combination: combination.copy(),
        ttq: marked(indicators, combination.ttq),
        indicators,
    }
}

fn indicators_of(exponent: u8, amount: u64, combination: &Combination) -> Indicators
    requires { exponent ≤ 4 }
    ensures { result ≡ indicators exponent amount combination.now }
{
    let refused = amount == 0 && combination.zero_allowed == Some(false);
    let zero = amount == 0 && !refused;
    Indicators {
        not_allowed: reaches(amount, combination.limit)
            || refused
            || zero && is_offline_only(combination.ttq),
        status: combination.status_check && amount == 10u64.pow(u32::from(exponent)),
        zero,
        floor: exceeds(amount, combination.floor.or(combination.terminal_floor)),
        cvm: reaches(amount, combination.cvm),
    }
}

// The amount is the limit or above.
fn reaches(amount: u64, limit: Option<u64>) -> bool
    ensures { result ≡ reaches amount limit }
{
    limit.is_some_and(|limit| amount >= limit)
}

// The amount is above the limit.
fn exceeds(amount: u64, limit: Option<u64>) -> bool
    ensures { result ≡ exceeds amount limit }
{
    limit.is_some_and(|limit| amount > limit)
}

// TTQ byte 1 bit 4: an offline-only reader.
fn is_offline_only(ttq: Option<[u8; 4]>) -> bool
    ensures { result ≡ is_offline_only ttq }
{
    match ttq {
        Some(ttq) => ttq[0] & 0x08 != 0,
        None => false,
    }
}

// A copy of the TTQ with bits 8 and 7 of byte 2 set anew.
fn marked(indicators: Indicators, ttq: Option<[u8; 4]>) -> Option<[u8; 4]>
    ensures { result ≡ marked indicators ttq }
{
    let mut bytes = ttq?;
    let online = indicators.floor || indicators.status || indicators.zero && !is_offline_only(ttq);
    bytes[1] = bytes[1] % 64 + 128 * u8::from(online) + 64 * u8::from(indicators.cvm);
    Some(bytes)
}
