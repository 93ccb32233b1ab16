//! Laws about the texts of fates, over plain data: each function's contract is a law, and its body is empty.
ghost use Rattle.fate_table.specs.Forms.{OneReading};

/// A text is read as what becomes of the frames of an exchange exactly where it spells this.
pub fn one_reading()
    ensures { OneReading }
{}
