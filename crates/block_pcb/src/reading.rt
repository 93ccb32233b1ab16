//! Blocks read from bytes.
ghost use Rattle.std.specs.Prelude.{◌≡◌, ◌≤◌, length, IfOk};
ghost use Rattle.ep_base.specs.Link.Spelling.{pcb_kind, is_any as any, is_i as i_block, is_cid as cid, is_nad as nad, pcb_fault as fault_of, read_block, read_bare, read_wtx, read_wtx_byte};
ghost use Rattle.block_pcb.specs.Meaning.{block_of, decoded_of, InRange, IsNumbered};

use crate::Block;
use ep_base::{BlockFault, MESSAGE};

/// Whether a PCB announces an I-block.
#[tactic(auto, unfolding(ep_base::specs::Link::Spelling::pcb_kind))]
fn is_i(pcb: u8) -> bool
    ensures { result ≡ i_block (pcb_kind pcb) }
{
    matches!(pcb, 0x02 | 0x03 | 0x12 | 0x13)
}

/// Whether a PCB announces a block of the protocol.
#[tactic(auto, unfolding(ep_base::specs::Link::Spelling::pcb_kind))]
fn is_any(pcb: u8) -> bool
    ensures { result ≡ any (pcb_kind pcb) }
{
    matches!(
        pcb,
        0x02 | 0x03 | 0x12 | 0x13 | 0xa2 | 0xa3 | 0xb2 | 0xb3 | 0xc2 | 0xf2
    )
}

/// Whether a PCB that announces no block would announce one without its CID bit, or an I-block without this and its
/// NAD bit.
#[tactic(auto, unfolding(ep_base::specs::Link::Spelling::is_cid))]
fn is_cid(pcb: u8) -> bool
    ensures { result ≡ cid pcb }
{
    if pcb / 8 % 2 == 0 {
        return false;
    }
    if is_any(pcb - 8) {
        return true;
    }
    pcb / 4 % 2 == 1 && is_i(pcb - 12)
}

/// Whether a PCB that announces no block would announce an I-block without its NAD bit.
#[tactic(auto, unfolding(ep_base::specs::Link::Spelling::is_nad))]
fn is_nad(pcb: u8) -> bool
    ensures { result ≡ nad pcb }
{
    pcb / 4 % 2 == 1 && is_i(pcb - 4)
}

/// Why a PCB announces no block of the protocol.
fn pcb_fault(pcb: u8) -> BlockFault
    ensures { result ≡ fault_of pcb }
{
    if is_cid(pcb) {
        BlockFault::Cid
    } else if is_nad(pcb) {
        BlockFault::Nad
    } else {
        BlockFault::BadPcb
    }
}

/// A block after whose PCB nothing follows.
fn bare<'b>(block: Block<'b>, inf: &[u8]) -> Result<Block<'b>, BlockFault>
    ensures block { decoded_of result ≡ read_bare (block_of block.entry) inf.now }
    ensures range { InRange block.entry → IfOk result InRange }
    ensures number { IsNumbered block.entry → IfOk result IsNumbered }
{
    if inf.is_empty() {
        Ok(block)
    } else {
        Err(BlockFault::BadInf)
    }
}

/// What follows the PCB of an S(WTX).
fn wtx<'b>(inf: &'b [u8]) -> Result<Block<'b>, BlockFault>
    ensures block { decoded_of result ≡ read_wtx inf.now }
    ensures range { IfOk result InRange }
    ensures number { IfOk result IsNumbered }
{
    match inf {
        [byte] => {
            let wtxm = byte % 64;
            if wtxm == 0 || wtxm > 59 {
                return Err(BlockFault::BadWtxm);
            }
            Ok(Block::Wtx {
                power: byte / 64,
                wtxm,
            })
        }
        _ => Err(BlockFault::BadInf),
    }
}

/// The block that bytes without check bytes are (ISO/IEC 14443-4).
///
/// Errors: `Empty` without a byte; `Cid`, `Nad` or `BadPcb` for a PCB that is none of the protocol's; `BadInf` for an
/// R-block or S(DESELECT) with further bytes and for an S(WTX) without exactly one; `BadWtxm` for a WTXM of 0 or above
/// 59. A block of at most 254 bytes has its values in their ranges, and a longer one its number too.
#[tactic(auto, unfolding(ep_base::specs::Link::Spelling::pcb_kind))]
pub fn decode(bytes: &[u8]) -> Result<Block<'_>, BlockFault>
    ensures block { decoded_of result ≡ read_block bytes.now }
    ensures range { length bytes.now ≤ MESSAGE → IfOk result InRange }
    ensures number { IfOk result IsNumbered }
{
    let Some((pcb, inf)) = bytes.split_first() else {
        return Err(BlockFault::Empty);
    };
    match *pcb {
        0x02 => Ok(Block::I {
            number: 0,
            chained: false,
            inf,
        }),
        0x03 => Ok(Block::I {
            number: 1,
            chained: false,
            inf,
        }),
        0x12 => Ok(Block::I {
            number: 0,
            chained: true,
            inf,
        }),
        0x13 => Ok(Block::I {
            number: 1,
            chained: true,
            inf,
        }),
        0xa2 => bare(Block::RAck { number: 0 }, inf),
        0xa3 => bare(Block::RAck { number: 1 }, inf),
        0xb2 => bare(Block::RNak { number: 0 }, inf),
        0xb3 => bare(Block::RNak { number: 1 }, inf),
        0xc2 => bare(Block::Deselect, inf),
        0xf2 => wtx(inf),
        other => Err(pcb_fault(other)),
    }
}
