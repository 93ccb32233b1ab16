//! An entry of an arena's table.

/// One live object, and where its value lies in the block. An empty value lies at place 0.
#[derive(Clone, Copy)]
pub(crate) struct Slot {
    pub(crate) serial: u64,
    pub(crate) group: u16,
    pub(crate) tag: u32,
    pub(crate) place: usize,
    pub(crate) len: usize,
}
