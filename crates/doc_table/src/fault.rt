//! What is wrong with a document.
ghost use Rattle.std.specs.Prelude.{◌≡◌};
ghost use Rattle.doc_table.specs.declared.fault.TableEnd.TheVariants as ends;

use arrayvec::ArrayString;
use ep_base::NoMemory;
use std::alloc::{AllocError, AllocFailed};
use std::marker::Model;

/// The kinds of fault.
#[derive(Clone, Copy, Debug, PartialEq, Eq)]
pub enum DocKind {
    UnknownKey,
    Missing,
    WrongKind,
    BadValue,
    TooMany,
    Conflict,
}

/// A fault, its place, and a number that tells more.
#[derive(Debug, Drop)]
pub struct DocFault {
    pub kind: DocKind,
    pub path: ArrayString<96>,
    pub number: i64,
}

impl Model for DocFault {
    ghost use Rattle.doc_table.specs.Fault.{Fault};

    ghost Value = { Fault };

    ghost view = { λ f. record { kind = f.kind; path = f.path.bytes; number = f.number } };
}

/// Why a call that takes memory gave nothing.
#[derive(Debug, Drop)]
pub enum TableEnd {
    Fault(DocFault),
    NoMemory,
}

impl From<DocFault> for TableEnd {
    ghost from_gives = { λ f e. e ≡ ends.Fault f };

    fn from(fault: DocFault) -> TableEnd {
        TableEnd::Fault(fault)
    }
}

impl From<AllocError> for TableEnd {
    ghost from_gives = { λ _ e. e ≡ ends.NoMemory };

    fn from(_e: AllocError) -> TableEnd {
        TableEnd::NoMemory
    }
}

impl<T: Drop> From<AllocFailed<T>> for TableEnd {
    ghost from_gives = { λ _ e. e ≡ ends.NoMemory };

    fn from(_e: AllocFailed<T>) -> TableEnd {
        TableEnd::NoMemory
    }
}

impl From<NoMemory> for TableEnd {
    ghost from_gives = { λ _ e. e ≡ ends.NoMemory };

    fn from(_e: NoMemory) -> TableEnd {
        TableEnd::NoMemory
    }
}
