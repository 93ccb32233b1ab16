//! Numbers that several tables of a card have.
ghost use Rattle.std.specs.Prelude.{◌≡◌, ◌+◌, ◌≤◌, length, IfOk};
ghost use Rattle.doc_table.specs.Section.{place};
ghost use Rattle.card_table.specs.Cards.{extensions, multiplier, frame_code, waiting_code};

use doc_table::{DocFault, Section};
use ep_base::ANSWER_WAITS;

/// How many S(WTX) come before a response, 0 to 8.
pub(crate) fn extensions(section: &Section) -> Result<u8, DocFault>
    requires { length section.now.path.now + 5 ≤ 96 }
    ensures value { result ≡ extensions (place section.now) }
{
    let count = section.integer_or("wtx", 0, 0, ANSWER_WAITS as u64)?;
    Ok(count as u8)
}

/// The WTXM of these, 1 to 59.
pub(crate) fn multiplier(section: &Section) -> Result<u8, DocFault>
    requires { length section.now.path.now + 5 ≤ 96 }
    ensures value { result ≡ multiplier (place section.now) }
{
    let multiplier = section.integer_or("wtxm", 1, 1, 59)?;
    Ok(multiplier as u8)
}

/// The code of the frame size that a card takes, 0 to 8.
pub(crate) fn frame_code(section: &Section) -> Result<u8, DocFault>
    requires { length section.now.path.now + 5 ≤ 96 }
    ensures value { result ≡ frame_code (place section.now) }
{
    let code = section.integer_or("fsci", 8, 0, 8)?;
    Ok(code as u8)
}

/// The frame waiting time integer, 0 to 14.
pub(crate) fn waiting_code(section: &Section) -> Result<u8, DocFault>
    requires { length section.now.path.now + 5 ≤ 96 }
    ensures value { result ≡ waiting_code (place section.now) }
{
    let code = section.integer_or("fwi", 4, 0, 14)?;
    Ok(code as u8)
}
