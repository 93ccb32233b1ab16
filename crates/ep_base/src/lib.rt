//! What every other crate stands on: bytes that come in and go out, the buffers and words that several crates
//! share, and, in `specs/`, the definitions of the air, the link, cards, poll rounds and data objects.
#![tactic(auto)]

mod activation;
mod air;
mod blocks;
mod buffers;
mod limits;
mod memory;
mod objects;
mod outcome;
mod standard;
mod streams;

pub use activation::{Atqb, AtqbFault, Ats, AtsFault, bit, waiting};
pub use air::{CardKind, Wave};
pub use blocks::{BlockFault, Phase};
pub use buffers::{Buf, FrameBuf, Line, frame_size};
pub use limits::{
    ANSWER_WAITS, ANSWERS, APPLICATIONS, ARENA_BYTES, ARENA_SLOTS, BETWEEN_TOGGLES, CARDS,
    COMBINATIONS, COMMAND, COMMAND_EXCHANGES, DATA, EXCHANGES, FATES, FRAME, FRAME_16, FSDI, INF,
    INPUT, LANES, LAST_START, LINE_BYTES, MESSAGE, NAMED, PAIRS, PIECE, RESPONSE, ROUND_EXCHANGES,
    ROUNDS, RULES, SCRIPTS, START_EXCHANGES, STEPS, TOGGLES, TRACE_LINES, TRANSACTIONS, TURNS,
    TYPE_COMBINATIONS, WAITS,
};
pub use memory::{MemorySink, MemorySource};
pub use objects::{Node, TlvFault};
pub use outcome::{Message, OutcomeKind};
pub use standard::{StdSink, StdSource};
pub use streams::{NoMemory, Pulled, ReadEnd, Sink, SinkFailed, Source, push_all, read_all};
