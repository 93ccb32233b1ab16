//! The truths of a Combination.

use std::marker::Model;

/// What Pre-Processing finds of a Combination (EMV Book B, Start A).
#[derive(Clone, Copy, Debug, PartialEq, Eq)]
pub struct Indicators {
    /// It isn't allowed for this purchase.
    pub not_allowed: bool,
    /// A status check is asked for: one unit of the currency.
    pub status: bool,
    /// The amount is zero, and zero is allowed.
    pub zero: bool,
    /// The amount is above the floor limit.
    pub floor: bool,
    /// The cardholder is to be verified.
    pub cvm: bool,
}

impl Model for Indicators {
    ghost use Rattle.ep_rules.specs.EntryPoint.PreProcessing.{Indicators as IndicatorsData};

    ghost Value = { IndicatorsData };

    ghost view = { λ i. record { not_allowed = i.not_allowed; status = i.status; zero = i.zero; floor = i.floor; cvm = i.cvm } };

    ghost inverse = { λ t. record { not_allowed = t.not_allowed; status = t.status; zero = t.zero; floor = t.floor; cvm = t.cvm } };
}
