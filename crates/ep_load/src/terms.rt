//! The configuration of a load.
ghost use Rattle.std.specs.Prelude.{◌≡◌, ◌≤◌, ◌<◌, length, IfOk};
ghost use Rattle.ep_load.specs.Terms.{chosen, terms, first, second, third};

use acquirer_config::{Combination, Config};
use ep_base::{Buf, NoMemory};
use std::alloc::Global;

const FIRST_AID: [u8; 7] = [0xa0, 0x00, 0x00, 0x00, 0x03, 0x10, 0x10];

const SECOND_AID: [u8; 7] = [0xa0, 0x00, 0x00, 0x00, 0x04, 0x10, 0x10];

const THIRD_AID: [u8; 6] = [0xa0, 0x00, 0x00, 0x00, 0x25, 0x01];

// The configuration.
pub(crate) fn terms(alloc: Global) -> Result<Config, NoMemory>
    ensures { IfOk result (λ c. c ≡ terms) }
{
    match vec![in alloc; first(), second(), third()] {
        Ok(list) => Ok(Config::of_list(2, list)),
        Err(_) => Err(NoMemory),
    }
}

// The Combination of a draw.
pub(crate) fn chosen(choice: u16) -> Combination
    ensures { result ≡ chosen choice }
{
    if choice == 0 {
        first()
    } else if choice == 1 {
        second()
    } else {
        third()
    }
}

// A name.
fn name_of(bytes: &[u8]) -> Buf<16>
    requires { length bytes.now ≤ 16 }
    ensures { result.items ≡ bytes.now }
{
    let mut name = Buf::new();
    name.try_extend_from_slice(bytes).unwrap();
    name
}

fn first() -> Combination
    ensures { result ≡ first }
{
    Combination {
        txn_type: 0,
        aid: name_of(&FIRST_AID),
        kernel: 3,
        status_check: false,
        zero_allowed: None,
        limit: Some(100_000),
        floor: Some(5_000),
        terminal_floor: None,
        cvm: Some(3_000),
        extended: false,
        ttq: Some([0x26, 0x00, 0x40, 0x00]),
    }
}

fn second() -> Combination
    ensures { result ≡ second }
{
    Combination {
        txn_type: 0,
        aid: name_of(&SECOND_AID),
        kernel: 2,
        status_check: false,
        zero_allowed: None,
        limit: Some(100_000),
        floor: None,
        terminal_floor: None,
        cvm: Some(3_000),
        extended: false,
        ttq: None,
    }
}

fn third() -> Combination
    ensures { result ≡ third }
{
    Combination {
        txn_type: 0,
        aid: name_of(&THIRD_AID),
        kernel: 4,
        status_check: false,
        zero_allowed: None,
        limit: Some(100_000),
        floor: Some(0),
        terminal_floor: None,
        cvm: None,
        extended: false,
        ttq: None,
    }
}
