//! Lengths from outside, at both ends of each case.

use apdu::{ApduFault, Command, Response};
use ep_base::{COMMAND, RESPONSE};

fn fault_of_command(bytes: &[u8]) -> Option<ApduFault> {
    Command::of(bytes).err()
}

#[test]
fn commands_by_their_lengths(rt: HostRuntime) {
    let long = [0u8; COMMAND + 1];
    let cases: [(&[u8], Option<ApduFault>); 8] = [
        (&[0x00, 0xa4, 0x04, 0x00], None),
        (&[0x00, 0xb2, 0x01, 0x0c, 0x00], None),
        (&[0x80, 0xa8, 0x00, 0x00, 0x02, 0x83, 0x00], None),
        (&[0x80, 0xa8, 0x00, 0x00, 0x02, 0x83, 0x00, 0x00], None),
        (&[0x00, 0xa4, 0x04], Some(ApduFault::Short)),
        (
            &[0x00, 0xa4, 0x04, 0x00, 0x02, 0x01],
            Some(ApduFault::LcWrong),
        ),
        (
            &[0x00, 0xa4, 0x04, 0x00, 0x00, 0x01],
            Some(ApduFault::LcWrong),
        ),
        (&long, Some(ApduFault::TooLong)),
    ];
    for (bytes, wanted) in cases {
        assert!(rt; fault_of_command(bytes) == wanted, "at {bytes:?}");
    }
}

#[test]
fn responses_by_their_lengths(rt: HostRuntime) {
    let long = [0u8; RESPONSE + 1];
    let cases: [(&[u8], Option<ApduFault>); 4] = [
        (&[0x90, 0x00], None),
        (&long[..RESPONSE], None),
        (&[0x90], Some(ApduFault::Short)),
        (&long, Some(ApduFault::TooLong)),
    ];
    for (bytes, wanted) in cases {
        assert!(rt; Response::of(bytes).err() == wanted, "at {bytes:?}");
    }
}

#[test]
fn select_of_the_payment_directory(rt: HostRuntime) {
    let command = Command::select(b"2PAY.SYS.DDF01");
    assert!(rt; command.bytes() == b"\x00\xa4\x04\x00\x0e2PAY.SYS.DDF01\x00".as_slice());
}
