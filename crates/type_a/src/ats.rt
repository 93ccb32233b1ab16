//! Answers to RATS.
ghost use Rattle.std.specs.Prelude.{◌≡◌, IfOk};
ghost use Rattle.ep_base.specs.Cards.Activation.{ats};
ghost use Rattle.ep_base.specs.Cards.CardLimits.{AreLimits};

use ep_base::{Ats, AtsFault, bit, frame_size, waiting};

/// What an ATS says (ISO/IEC 14443-4): TL, which counts all bytes, T0, the interface bytes that it announces, and
/// historical bytes. Without T0 the frame size is 32 bytes, without TB the frame waiting time integer 4. `LengthWrong`
/// comes before `Cut`.
#[tactic(auto, unfolding(ep_base::specs::Cards::Activation::ats, ep_base::specs::Air::FrameSize::frame_size))]
pub fn parse_ats(payload: &[u8]) -> Result<Ats, AtsFault>
    ensures says { result ≡ ats payload.now }
    ensures limits { IfOk result (λ a. AreLimits a.fsc a.fwi) }
{
    if payload.len() == 0 || usize::from(payload[0]) != payload.len() {
        return Err(AtsFault::LengthWrong);
    }
    if payload.len() == 1 {
        return Ok(Ats { fsc: 32, fwi: 4 });
    }
    let t0 = payload[1];
    let announced = bit(t0, 0x10) + bit(t0, 0x20) + bit(t0, 0x40);
    if payload.len() < 2 + usize::from(announced) {
        return Err(AtsFault::Cut);
    }
    let fsc = frame_size(t0 % 16);
    if bit(t0, 0x20) == 1 {
        let tb = payload[2 + usize::from(bit(t0, 0x10))];
        return Ok(Ats {
            fsc,
            fwi: waiting(tb / 16),
        });
    }
    Ok(Ats { fsc, fwi: 4 })
}
