//! What the checker says of a bad line.

/// Why a line isn't allowed: the first of these that applies, in the order `Card`, `Wait`, `Reader`, `Activation`.
#[derive(Clone, Copy, Debug, PartialEq, Eq)]
pub enum Rule {
    /// No link was open, and the frame isn't the poll round's.
    Activation,
    /// A link was open, and the frame isn't the link's.
    Reader,
    /// The frame is right, and what was heard is outside the rules.
    Card,
    /// The frame is right, and its waiting number isn't.
    Wait,
}

/// The first bad line of a trace.
#[derive(Clone, Copy, Debug, PartialEq, Eq)]
pub struct Verdict {
    /// Its place, counted from 1.
    pub place: u32,
    /// Its lane.
    pub lane: u8,
    /// Why it is bad.
    pub rule: Rule,
}
