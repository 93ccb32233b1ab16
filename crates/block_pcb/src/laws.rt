//! Laws about spellings, over plain lists of bytes: each function's contract is a law, and its body is empty.
ghost use Rattle.block_pcb.specs.Laws.{SpelledIsRead, ReadIsSpelled};

/// A block is read again from its spelling.
pub fn spelled_is_read()
    ensures { SpelledIsRead }
{}

/// What was read is spelled as the same bytes.
pub fn read_is_spelled()
    ensures { ReadIsSpelled }
{}
