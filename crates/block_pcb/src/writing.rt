//! Blocks written as bytes.
ghost use Rattle.std.specs.Prelude.{◌≡◌, ◌≤◌, []};
ghost use Rattle.arrayvec.specs.ArrayVec.{array_vec_len};
ghost use Rattle.ep_base.specs.Link.Spelling.{pcb_of, inf_of, spelled};
ghost use Rattle.block_pcb.specs.Meaning.{block_of, InRange};

use crate::Block;
use ep_base::{FrameBuf, MESSAGE};

/// The first byte of a block.
fn pcb(block: &Block<'_>) -> u8
    requires { InRange block.now }
    ensures { result ≡ pcb_of (block_of block.now) }
{
    match *block {
        Block::I {
            number,
            chained,
            ..
        } => {
            let chaining = if chained { 0x10 } else { 0 };
            0x02 + chaining + number
        }
        Block::RAck { number } => 0xa2 + number,
        Block::RNak { number } => 0xb2 + number,
        Block::Deselect => 0xc2,
        Block::Wtx { .. } => 0xf2,
    }
}

/// Writes the one spelling of a block, without check bytes, into an empty buffer (ISO/IEC 14443-4). The block's values
/// are in their ranges.
pub fn encode(block: &Block<'_>, out: &mut FrameBuf)
    requires range { InRange block.now }
    requires empty { out.old.items ≡ [] }
    ensures bytes { out.new.items ≡ spelled (block_of block.now) }
    ensures most { array_vec_len out.new ≤ MESSAGE }
{
    out.push(pcb(block));
    match *block {
        Block::I { inf, .. } => out.try_extend_from_slice(inf).unwrap(),
        Block::RAck { .. } | Block::RNak { .. } | Block::Deselect => {}
        Block::Wtx { power, wtxm } => out.push(64 * power + wtxm),
    }
}
