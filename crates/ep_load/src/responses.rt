//! What the cards of a load answer.
ghost use Rattle.std.specs.Prelude.{◌≡◌, ◌+◌, ◌≤◌, ◌∷◌, ◌++◌, length};
ghost use Rattle.ep_load.specs.Responses.{ppse_response, select_response, kernel_response, succeeded};

use apdu::{PPSE_NAME, Response, SUCCESS};
use ep_base::Buf;

// An object whose length is one byte.
fn object(tag: &[u8], value: &[u8]) -> Buf<64>
    requires { length tag.now + length value.now + 1 ≤ 64 }
    ensures { result.items ≡ tag.now ++ length value.now ∷ value.now }
{
    let mut bytes = Buf::new();
    bytes.try_extend_from_slice(tag).unwrap();
    bytes.push(value.len() as u8);
    bytes.try_extend_from_slice(value).unwrap();
    bytes
}

// Two byte strings, one after the other.
fn joined(first: &[u8], second: &[u8]) -> Buf<64>
    requires { length first.now + length second.now ≤ 64 }
    ensures { result.items ≡ first.now ++ second.now }
{
    let mut bytes = Buf::new();
    bytes.try_extend_from_slice(first).unwrap();
    bytes.try_extend_from_slice(second).unwrap();
    bytes
}

// A template as a response with the status word 9000.
fn response_with(template: &[u8]) -> Response
    requires { length template.now + 2 ≤ 64 }
    ensures { result ≡ template.now ++ succeeded }
{
    let bytes = joined(template, &SUCCESS.to_be_bytes());
    Response::of(bytes.as_slice()).unwrap()
}

// The response to SELECT PPSE.
pub(crate) fn ppse_response(name: &[u8]) -> Response
    requires { length name.now ≤ 16 }
    ensures { result ≡ ppse_response name.now }
{
    let name = object(&[0x4f], name);
    let priority = object(&[0x87], &[0x01]);
    let entry = object(
        &[0x61],
        joined(name.as_slice(), priority.as_slice()).as_slice(),
    );
    let list = object(&[0xbf, 0x0c], entry.as_slice());
    let proprietary = object(&[0xa5], list.as_slice());
    let directory = object(&[0x84], &PPSE_NAME);
    let whole = joined(directory.as_slice(), proprietary.as_slice());
    response_with(object(&[0x6f], whole.as_slice()).as_slice())
}

// The response to the SELECT of the application with this name.
pub(crate) fn select_response(name: &[u8]) -> Response
    requires { length name.now ≤ 16 }
    ensures { result ≡ select_response name.now }
{
    let name = object(&[0x84], name);
    response_with(object(&[0x6f], name.as_slice()).as_slice())
}

// The response to the kernel's command.
pub(crate) fn kernel_response() -> Response
    ensures { result ≡ kernel_response }
{
    Response::of(&[0x80, 0x06, 0x20, 0x00, 0x08, 0x01, 0x01, 0x00, 0x90, 0x00]).unwrap()
}
