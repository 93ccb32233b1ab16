//! Pairs of an entry and a Combination, and their order.
ghost use Rattle.std.specs.Prelude.{◌≡◌};
ghost use Rattle.select_rules.specs.Order.{pair_of};

/// An entry of the directory and a Combination of Pre-Processing's list, each by its number from 1.
#[derive(Clone, Copy, Debug, PartialEq, Eq)]
pub struct Pair {
    /// The number of the entry.
    pub entry: u16,
    /// The number of the Combination among those of its transaction type.
    pub combination: u8,
}

// A pair with its priority, 1 the highest and 16 the lowest. The fields stand in the order in which they decide.
#[derive(Clone, Copy, Debug, Default, PartialEq, Eq, PartialOrd, Ord)]
pub(crate) struct Ranked {
    pub(crate) priority: u8,
    pub(crate) entry: u16,
    pub(crate) combination: u8,
}

impl Ranked {
    // The pair without its priority.
    pub(crate) fn pair(&self) -> Pair
        ensures { result ≡ pair_of self.now }
    {
        Pair {
            entry: self.entry,
            combination: self.combination,
        }
    }
}
