//! ATQB and ATTRIB.
ghost use Rattle.std.specs.Prelude.{◌≡◌, length, IfOk};
ghost use Rattle.ep_base.specs.Cards.Activation.{atqb};
ghost use Rattle.ep_base.specs.Cards.CardLimits.{AreLimits};
ghost use Rattle.ep_base.specs.Cards.TypeB.{attrib_of};

use ep_base::{Atqb, AtqbFault, Buf, bit, frame_size, waiting};

/// What an ATQB says (ISO/IEC 14443-3): 50h, PUPI, four bytes of application data, three of protocol info. `LengthWrong`
/// comes before `NotAtqb`.
#[tactic(auto, unfolding(ep_base::specs::Cards::Activation::atqb))]
pub fn parse_atqb(payload: &[u8]) -> Result<Atqb, AtqbFault>
    ensures says { result ≡ atqb payload.now }
    ensures limits { IfOk result (λ a. AreLimits a.fsc a.fwi) }
{
    if payload.len() != 12 {
        return Err(AtqbFault::LengthWrong);
    }
    if payload[0] != 0x50 {
        return Err(AtqbFault::NotAtqb);
    }
    let mut pupi = [0; 4];
    pupi.copy_from_slice(&payload[1..5]);
    Ok(Atqb {
        pupi,
        fsc: frame_size(payload[10] / 16),
        fwi: waiting(payload[11] / 16),
        iso4: bit(payload[10], 0x01) == 1,
    })
}

/// ATTRIB to a card, with the reader's FSDI.
pub(crate) fn attrib(pupi: &[u8], fsdi: u8) -> Buf<9>
    requires { length pupi.now ≡ 4 }
    ensures message { result.items ≡ attrib_of pupi.now fsdi }
    ensures nine { length result.items ≡ 9 }
{
    let mut message = Buf::<9>::new();
    message.push(0x1d);
    message.try_extend_from_slice(pupi).unwrap();
    message.push(0);
    message.push(fsdi);
    message.push(1);
    message.push(0);
    message
}
