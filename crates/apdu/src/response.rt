//! Responses.
ghost use Rattle.std.specs.Prelude.{◌≡◌, ◌<◌, ◌≤◌, ◌+◌, ◌↔◌, length, IfOk, IsErrOf};
ghost use Rattle.ep_base.specs.Cards.Apdu.{data_of, status_of};

use crate::ApduFault;
use arrayvec::ArrayVec;
use ep_base::{DATA, RESPONSE};
use std::marker::Model;

/// The status word of a response that gives what was asked (ISO/IEC 7816-4).
pub const SUCCESS: u16 = 0x9000;

/// A response of 2 to 258 bytes, data and a status word, seen as its bytes.
#[derive(Drop)]
pub struct Response {
    bytes: ArrayVec<u8, RESPONSE>,
}

impl Model for Response {
    ghost use Rattle.std.specs.Prelude.{List, ℕ, ◌≤◌, length};

    ghost Value = { List ℕ };

    ghost view = { λ r. r.bytes.items };

    ghost invariant = { λ r. 2 ≤ length r.bytes.items };
}

impl Response {
    /// The response that has these bytes.
    ///
    /// Errors: `Short` under 2 bytes, `TooLong` above 258.
    pub fn of(bytes: &[u8]) -> Result<Response, ApduFault>
        ensures ok { IfOk result (λ r. (r ≡ bytes.now) × (2 ≤ length bytes.now) × (length bytes.now ≤ RESPONSE)) }
        ensures short { IsErrOf result ApduFault.Short ↔ (length bytes.now < 2) }
        ensures long { IsErrOf result ApduFault.TooLong ↔ (RESPONSE < length bytes.now) }
        ensures never { IsErrOf result ApduFault.LcWrong → ⊥ }
    {
        if bytes.len() < 2 {
            return Err(ApduFault::Short);
        }
        match ArrayVec::try_from(bytes) {
            Ok(bytes) => Ok(Response { bytes }),
            Err(_) => Err(ApduFault::TooLong),
        }
    }

    /// The response's bytes.
    pub fn bytes(&self) -> &[u8]
        ensures bytes { result.now ≡ self.now }
        ensures least { 2 ≤ length self.now }
        ensures most { length self.now ≤ RESPONSE }
    {
        self.bytes.as_slice()
    }

    /// The bytes before the status word.
    pub fn data(&self) -> &[u8]
        ensures bytes { result.now ≡ data_of self.now }
        ensures count { length result.now + 2 ≡ length self.now }
        ensures most { length result.now ≤ DATA }
    {
        let bytes = self.bytes();
        let (data, _) = bytes.split_at(bytes.len() - 2);
        data
    }

    /// The status word, the first of its two bytes highest.
    pub fn sw(&self) -> u16
        ensures value { result ≡ status_of self.now }
    {
        let bytes = self.bytes();
        let high = bytes[bytes.len() - 2];
        let low = bytes[bytes.len() - 1];
        u16::from(high) * 256 + u16::from(low)
    }

    /// Becomes the response with these 2 to 258 bytes, which takes no memory.
    pub fn set(&mut self, bytes: &[u8])
        requires least { 2 ≤ length bytes.now }
        requires most { length bytes.now ≤ RESPONSE }
        ensures value { self.new ≡ bytes.now }
    {
        self.bytes.clear();
        self.bytes.try_extend_from_slice(bytes).unwrap();
    }

    /// The same response once more, which takes no memory.
    pub fn copy(&self) -> Response
        ensures { result ≡ self.now }
    {
        Response {
            bytes: ArrayVec::try_from(self.bytes.as_slice()).unwrap(),
        }
    }
}
