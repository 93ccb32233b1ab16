//! What Pre-Processing gives.
ghost use Rattle.std.specs.Prelude.{◌≡◌, ◌≤◌, length};
ghost use Rattle.std.specs.List.{list_any};
ghost use Rattle.ep_rules.specs.EntryPoint.PreProcessing.{any_allowed, is_allowed};

use crate::Indicators;
use acquirer_config::Combination;
use arrayvec::ArrayVec;
use ep_base::{Buf, TYPE_COMBINATIONS};
use std::default::Default;
use std::marker::Model;

/// A Combination after Pre-Processing.
#[derive(Debug, Drop)]
pub struct PreparedOne {
    /// The Combination as it is configured.
    pub combination: Combination,
    /// What was found of it.
    pub indicators: Indicators,
    /// Its own copy of the Terminal Transaction Qualifiers, with bits 8 and 7 of byte 2 set anew.
    pub ttq: Option<[u8; 4]>,
}

impl Model for PreparedOne {
    ghost use Rattle.ep_rules.specs.EntryPoint.PreProcessing.{PreparedOne as PreparedOneData};

    ghost Value = { PreparedOneData };

    ghost view = { λ p. record { combination = p.combination; indicators = p.indicators; ttq = p.ttq } };
}

impl PreparedOne {
    /// Whether it is allowed for this purchase.
    pub fn is_allowed(&self) -> bool
        ensures { result ≡ is_allowed self.now }
    {
        let indicators = &self.indicators;
        !indicators.not_allowed
    }

    /// The same once more, which takes no memory.
    pub fn copy(&self) -> PreparedOne
        ensures { result ≡ self.now }
    {
        PreparedOne {
            combination: self.combination.copy(),
            indicators: self.indicators,
            ttq: self.ttq,
        }
    }
}

impl Default for PreparedOne {
    // What stands in the unused places of a list.
    fn default() -> PreparedOne {
        PreparedOne {
            combination: Combination {
                txn_type: 0,
                aid: Buf::new(),
                kernel: 0,
                status_check: false,
                zero_allowed: None,
                limit: None,
                floor: None,
                terminal_floor: None,
                cvm: None,
                extended: false,
                ttq: None,
            },
            indicators: Indicators {
                not_allowed: true,
                status: false,
                zero: false,
                floor: false,
                cvm: false,
            },
            ttq: None,
        }
    }
}

/// What Pre-Processing gives for one transaction: each Combination of its type, at most 16, in the configuration's
/// order.
#[derive(Drop)]
pub struct Prepared {
    txn_type: u8,
    amount: u64,
    list: ArrayVec<PreparedOne, TYPE_COMBINATIONS>,
}

impl Model for Prepared {
    ghost use Rattle.pre_processing.specs.Preparation.{Preparation};

    ghost Value = { Preparation };

    ghost view = { λ p. record { txn_type = p.txn_type; amount = p.amount; list = p.list.items } };
}

impl Prepared {
    pub(crate) fn of(
        txn_type: u8,
        amount: u64,
        list: ArrayVec<PreparedOne, TYPE_COMBINATIONS>,
    ) -> Prepared
        ensures { result ≡ record { txn_type = txn_type; amount = amount; list = list.items } }
    {
        Prepared {
            txn_type,
            amount,
            list,
        }
    }

    /// The Combinations, the first of which has the number 1.
    pub fn list(&self) -> &[PreparedOne]
        ensures value { result.now ≡ self.now.list }
        ensures few { length result.now ≤ TYPE_COMBINATIONS }
    {
        self.list.as_slice()
    }

    /// Whether some Combination is allowed.
    pub fn any_allowed(&self) -> bool
        ensures { result ≡ any_allowed self.now.list }
    {
        some_allowed(self.list())
    }

    /// The transaction type, one byte.
    pub fn txn_type(&self) -> u8
        ensures { result ≡ self.now.txn_type }
    {
        self.txn_type
    }

    /// The amount in minor units.
    pub fn amount(&self) -> u64
        ensures { result ≡ self.now.amount }
    {
        self.amount
    }

    /// The same once more, which takes no memory.
    pub fn copy(&self) -> Prepared
        ensures { result ≡ self.now }
    {
        Prepared {
            txn_type: self.txn_type,
            amount: self.amount,
            list: copy_list(self.list()),
        }
    }
}

fn copy_list(ones: &[PreparedOne]) -> ArrayVec<PreparedOne, TYPE_COMBINATIONS>
    requires { length ones.now ≤ TYPE_COMBINATIONS }
    ensures { result.items ≡ ones.now }
{
    let mut list = ArrayVec::new();
    for one in ones {
        list.push(one.copy());
    }
    list
}

fn some_allowed(ones: &[PreparedOne]) -> bool
    ensures { result ≡ list_any is_allowed ones.now }
{
    ones.iter().any(|one| one.is_allowed())
}
