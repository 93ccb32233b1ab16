//! Laws of what a whole transaction over the radio begins with, each the contract of a function that does nothing: a field
//! that was just opened, and a talk that its log carries.
//!
//! The field is defined in `ep_base`, the perfect run in `ep_rules`, and what a transaction over a field keeps to in `ep_claim`.
#![tactic(auto)]

ghost use Rattle.ep_rules.specs.EntryPoint.Kernel.{KernelSteps};
ghost use Rattle.ep_claim.specs.Promise.Closings.{TransactionCloses};
ghost use Rattle.ep_claim.specs.Promise.Cards.{NewFieldIsNew};
ghost use Rattle.law_radio.specs.Purchases.{TransactionIsCarried};

/// A field that was just opened with a document's cards is as the laws of lanes want it, with the numbers and the images
/// that are found in it by kind and identifier, and by number.
pub fn new_field_is_new()
    ensures { NewFieldIsNew }
{}

/// A transaction of Entry Point with kernels that send commands alone is a talk that a log carries which has room for one
/// record more than its bound. S has the states of the kernels.
pub fn transaction_is_carried<S>()
    ensures { (k : KernelSteps S) → TransactionIsCarried k }
{}

/// A transaction of Entry Point closes a card that was found alone, whatever its kernels are. S has their states.
pub fn transaction_closes<S>()
    ensures { (k : KernelSteps S) → TransactionCloses k }
{}
