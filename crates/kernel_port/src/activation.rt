//! What a kernel is given.
ghost use Rattle.std.specs.Prelude.{◌≡◌};

use arrayvec::ArrayVec;
use ep_base::{Buf, DATA};
use pre_processing::Indicators;
use std::marker::Model;

/// What a kernel is given at its activation (EMV Book B, Start D).
#[derive(Drop)]
pub struct Activation {
    /// Its Kernel ID.
    pub kernel: u32,
    /// The Combination's number among those of its transaction type, from 1.
    pub combination: u8,
    /// The ADF Name of the directory entry.
    pub name: Buf<16>,
    /// What Pre-Processing found.
    pub indicators: Indicators,
    /// The Combination's copy of the Terminal Transaction Qualifiers, if it has them.
    pub ttq: Option<[u8; 4]>,
    /// The data of the answer to the final SELECT.
    pub fci: Buf<DATA>,
}

impl Model for Activation {
    ghost use Rattle.ep_rules.specs.EntryPoint.Event.{Activation as ActivationData};

    ghost Value = { ActivationData };

    ghost view = { λ a. record {
      kernel = a.kernel;
      combination = a.combination;
      name = a.name.items;
      indicators = a.indicators;
      ttq = a.ttq;
      fci = a.fci.items;
    } };
}

impl Activation {
    /// The Kernel ID.
    pub fn kernel(&self) -> u32
        ensures { result ≡ self.now.kernel }
    {
        self.kernel
    }

    /// The same once more, which takes no memory.
    pub fn copy(&self) -> Activation
        ensures { result ≡ self.now }
    {
        Activation {
            kernel: self.kernel,
            combination: self.combination,
            name: ArrayVec::try_from(self.name.as_slice()).unwrap(),
            indicators: self.indicators,
            ttq: self.ttq,
            fci: ArrayVec::try_from(self.fci.as_slice()).unwrap(),
        }
    }
}
