//! The numbers that bound what goes over the air, through the objects and in and out (this project's profile, but for the
//! frame's 256 bytes of ISO/IEC 14443-4). Code, clauses, definitions and proofs name them; numbers that follow from others
//! are written as expressions of them.

/// The most bytes of a frame, its prologue and its check bytes among them.
pub const FRAME: usize = 256;

/// The same, as the number of a frame's size.
pub const FRAME_16: u16 = FRAME as u16;

/// The largest FSDI, by which a reader names the largest frame that it takes: of 256 bytes.
pub const FSDI: u8 = 8;

/// The most bytes of a message: a frame without its two check bytes.
pub const MESSAGE: usize = FRAME - 2;

/// The most bytes of a block's INF: a message without its prologue byte.
pub const INF: usize = MESSAGE - 1;

/// The most bytes of a command.
pub const COMMAND: usize = 261;

/// The most bytes of a response.
pub const RESPONSE: usize = 258;

/// The most bytes of a response's data, which stand before its status word.
pub const DATA: usize = RESPONSE - 2;

/// The most toggles of a command: one for each part of it, which has 13 bytes in the smallest frame, and one for each byte of
/// its response.
pub const TOGGLES: usize = COMMAND / 13 + 1 + RESPONSE;

/// The most S(WTX) from one toggle to the next.
pub const WAITS: usize = 16;

/// The most exchanges from one toggle to the next: its S(WTX), three bad ones, and two more.
pub const EXCHANGES: usize = WAITS + 5;

/// The most exchanges from one toggle to the next that are promised, and that a reader's end keeps.
pub const BETWEEN_TOGGLES: usize = 32;

/// The most exchanges of a command.
pub const COMMAND_EXCHANGES: usize = TOGGLES * EXCHANGES;

/// The most poll rounds of a Start B.
pub const ROUNDS: usize = 64;

/// The most exchanges of a poll round.
pub const ROUND_EXCHANGES: usize = 11;

/// The most exchanges of a Start B: its rounds, and one that closes a link.
pub const START_EXCHANGES: usize = ROUND_EXCHANGES * ROUNDS + 1;

/// The most directory entries of a response that can be candidates.
pub const NAMED: usize = 28;

/// The most Combinations of a configuration.
pub const COMBINATIONS: usize = 64;

/// The most Combinations of a transaction type.
pub const TYPE_COMBINATIONS: usize = 16;

/// The most pairs of a directory entry and a Combination.
pub const PAIRS: usize = NAMED * TYPE_COMBINATIONS;

/// The most applications of a card image.
pub const APPLICATIONS: usize = 16;

/// The most rules of an application.
pub const RULES: usize = 32;

/// The most responses of a list of a card image.
pub const ANSWERS: usize = 16;

/// The most S(WTX) before a response of a card image.
pub const ANSWER_WAITS: usize = 8;

/// The most cards of a transaction.
pub const CARDS: usize = 4;

/// The most fates of a transaction.
pub const FATES: usize = 4_096;

/// The most scripts of a transaction.
pub const SCRIPTS: usize = 4;

/// The most steps of a script.
pub const STEPS: usize = 16;

/// The most transactions of a lane.
pub const TRANSACTIONS: usize = 64;

/// The most lanes.
pub const LANES: usize = 8;

/// The most turns of a turn list.
pub const TURNS: usize = 4_096;

/// The most lines of a document's trace.
pub const TRACE_LINES: usize = 65_536;

/// The bytes of a session's arena.
pub const ARENA_BYTES: usize = 1_024;

/// The slots of a session's arena.
pub const ARENA_SLOTS: usize = 192;

/// The most bytes of a line of output, its newline among them.
pub const LINE_BYTES: usize = 1_200;

/// The last place of a bit at which a burst of a document may start.
pub const LAST_START: u32 = 4_095;

/// The most bytes of an input.
pub const INPUT: usize = 1_048_576;

/// How many bytes of an input are asked for at a time.
pub const PIECE: usize = 16_384;
