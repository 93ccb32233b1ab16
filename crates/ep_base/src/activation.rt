//! What ATS and ATQB say.
ghost use Rattle.std.specs.Prelude.{◌≡◌, ◌≤◌, ◌<◌};
ghost use Rattle.ep_base.specs.Cards.Activation.{bit, waiting};

/// What an ATS says (ISO/IEC 14443-4).
#[derive(Clone, Copy, Debug, PartialEq, Eq)]
pub struct Ats {
    /// The size of the frames that the card takes, in bytes, prologue and check bytes included.
    pub fsc: u16,
    /// Its frame waiting time integer, 0 to 14.
    pub fwi: u8,
}

/// Why bytes are no ATS.
#[derive(Clone, Copy, Debug, PartialEq, Eq)]
pub enum AtsFault {
    /// There is no byte, or TL differs from their number.
    LengthWrong,
    /// T0 announces bytes that aren't there.
    Cut,
}

/// What an ATQB says (ISO/IEC 14443-3).
#[derive(Clone, Copy, Debug, PartialEq, Eq)]
pub struct Atqb {
    /// The card's pseudo-unique identifier.
    pub pupi: [u8; 4],
    /// The size of the frames that the card takes, in bytes, prologue and check bytes included.
    pub fsc: u16,
    /// Its frame waiting time integer, 0 to 14.
    pub fwi: u8,
    /// Whether the card follows ISO/IEC 14443-4.
    pub iso4: bool,
}

/// Why bytes are no ATQB.
#[derive(Clone, Copy, Debug, PartialEq, Eq)]
pub enum AtqbFault {
    /// They aren't twelve.
    LengthWrong,
    /// The first one isn't 50h.
    NotAtqb,
}

/// The bit of this weight in a byte, 1 or 0. The weight isn't 0.
pub fn bit(byte: u8, weight: u8) -> u8
    requires { 0 < weight }
    ensures value { result ≡ bit byte weight }
    ensures most { result ≤ 1 }
{
    byte / weight % 2
}

/// The frame waiting time integer of a nibble (ISO/IEC 14443-4): 15 counts as 4, which is this project's profile.
pub fn waiting(nibble: u8) -> u8
    ensures value { result ≡ waiting nibble }
    ensures most { nibble < 16 → result ≤ 14 }
{
    if nibble == 15 { 4 } else { nibble }
}
