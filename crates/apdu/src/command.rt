//! Commands.
ghost use Rattle.std.specs.Prelude.{◌≡◌, ◌<◌, ◌≤◌, ◌↔◌, true, false, length, IfOk, IsErrOf};
ghost use Rattle.ep_base.specs.Cards.Apdu.{is_command, select};

use crate::ApduFault;
use arrayvec::ArrayVec;
use ep_base::COMMAND;
use std::marker::Model;

/// The name of the Proximity Payment System Environment (EMV Book B).
pub const PPSE_NAME: [u8; 14] = *b"2PAY.SYS.DDF01";

/// A command of 4 to 261 bytes, seen as its bytes.
#[derive(Drop)]
pub struct Command {
    bytes: ArrayVec<u8, COMMAND>,
}

impl Model for Command {
    ghost use Rattle.std.specs.Prelude.{◌≡◌, ◌≤◌, true, length, List, ℕ};
    ghost use Rattle.ep_base.specs.Cards.Apdu.{is_command};

    ghost Value = { List ℕ };

    ghost view = { λ c. c.bytes.items };

    ghost invariant = { λ c. (is_command c.bytes.items ≡ true) × (4 ≤ length c.bytes.items) };
}

impl Command {
    /// The command that has these bytes: 4; or 5; or, with byte 5 as Lc from 1 up, `5 + Lc` or `6 + Lc` bytes.
    ///
    /// Errors: `Short` under 4 bytes, `TooLong` above 261, `LcWrong` for every other length.
    #[tactic(auto, unfolding(ep_base::specs::Cards::Apdu::is_command))]
    pub fn of(bytes: &[u8]) -> Result<Command, ApduFault>
        ensures ok { IfOk result (λ c. (c ≡ bytes.now) × (is_command bytes.now ≡ true)) }
        ensures short { IsErrOf result ApduFault.Short ↔ (length bytes.now < 4) }
        ensures long { IsErrOf result ApduFault.TooLong ↔ (COMMAND < length bytes.now) }
        ensures wrong { IsErrOf result ApduFault.LcWrong ↔ ((4 ≤ length bytes.now) × (length bytes.now ≤ COMMAND) × (is_command bytes.now ≡ false)) }
    {
        if bytes.len() < 4 {
            return Err(ApduFault::Short);
        }
        if bytes.len() > COMMAND {
            return Err(ApduFault::TooLong);
        }
        if !has_right_length(bytes) {
            return Err(ApduFault::LcWrong);
        }
        match ArrayVec::try_from(bytes) {
            Ok(bytes) => Ok(Command { bytes }),
            Err(_) => Err(ApduFault::TooLong),
        }
    }

    /// SELECT by a name of 1 to 16 bytes, with Le 00.
    pub fn select(name: &[u8]) -> Command
        requires some { 0 < length name.now }
        requires room { length name.now ≤ 16 }
        ensures bytes { result ≡ select name.now }
    {
        let mut bytes = ArrayVec::new();
        bytes.push(0x00);
        bytes.push(0xa4);
        bytes.push(0x04);
        bytes.push(0x00);
        bytes.push(name.len() as u8);
        for byte in name {
            bytes.push(*byte);
        }
        bytes.push(0x00);
        Command { bytes }
    }

    /// The command's bytes.
    pub fn bytes(&self) -> &[u8]
        ensures bytes { result.now ≡ self.now }
        ensures is_one { is_command self.now ≡ true }
        ensures least { 4 ≤ length self.now }
        ensures most { length self.now ≤ COMMAND }
    {
        self.bytes.as_slice()
    }

    /// Becomes the same command as another one, which takes no memory.
    pub fn set(&mut self, other: &Command)
        ensures value { self.new ≡ other.now }
    {
        self.bytes.clear();
        self.bytes
            .try_extend_from_slice(other.bytes.as_slice())
            .unwrap();
    }

    /// The same command once more, which takes no memory.
    pub fn copy(&self) -> Command
        ensures { result ≡ self.now }
    {
        Command {
            bytes: ArrayVec::try_from(self.bytes.as_slice()).unwrap(),
        }
    }
}

// Whether 4 to 261 bytes have a length that byte 5 allows.
#[tactic(auto, unfolding(ep_base::specs::Cards::Apdu::is_command))]
fn has_right_length(bytes: &[u8]) -> bool
    requires least { 4 ≤ length bytes.now }
    requires most { length bytes.now ≤ COMMAND }
    ensures { result ≡ is_command bytes.now }
{
    if bytes.len() <= 5 {
        return true;
    }
    let count = usize::from(bytes[4]);
    count > 0 && (bytes.len() == 5 + count || bytes.len() == 6 + count)
}
