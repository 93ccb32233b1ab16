//! Two lanes and a probe that alters what is heard.

use super::cases::spelled;
use super::{End, check, probed};
use ep_lanes::{Ask, Heard, Probe};
use std::test::Fail;

/// A probe that counts down, and gives silence where 8, 6 and 4 hearings are left. It tells its steps, so that they fix
/// what `serve` writes with it.
#[derive(Drop)]
struct Deaf {
    left: u8,
}

impl Probe for Deaf {
    ghost use Rattle.std.specs.Prelude.{◌-◌, ◌==◌, ◌||◌, ℕ, if◌then◌else◌};
    ghost use Rattle.ep_base.specs.Air.Heard.{Silence};
    ghost use Rattle.ep_claim.specs.Lanes.Probing.{probe_told};

    ghost State = { ℕ };

    ghost state = { λ d. d.left };

    ghost steps = { probe_told (record { hear = λ p lane ask heard. (p - 1, if (p == 8) || (p == 6) || (p == 4) then Silence else heard) }) };

    fn hear(&mut self, _lane: u8, _ask: &Ask, heard: &Heard) -> Heard {
        let left = self.left;
        self.left = left.saturating_sub(1);
        if left == 8 || left == 6 || left == 4 {
            Heard::Silence
        } else {
            heard.copy()
        }
    }
}

/// Two lanes by a turn list, each with a purchase whose card has no directory.
const BY_TURNS: &str =
    r"<version>turns = [1, 1, 2, 1]\n<combination><lane><card><no-directory><application><script><lane><card><no-directory><application><script>";

/// What two lanes write where the first one's eighth, ninth and tenth exchange are heard as silence.
const SILENCED: &str = "\
1.1 start type=00 amount=1000
1.1 pre 1 aid=a0000000031010 kernel=3 allowed=1 status=0 zero=0 floor=0 cvm=0 ttq=-
1.1 message 15 Present card
2.1 start type=00 amount=1000
2.1 pre 1 aid=a0000000031010 kernel=3 allowed=1 status=0 zero=0 floor=0 cvm=0 ttq=-
2.1 message 15 Present card
1.1 card A 01020304
2.1 card A 01020304
1.1 end link
1.1 log 1 00a404000e325041592e5359532e444446303100
2.1 apdu 00a404000e325041592e5359532e444446303100 6a82
2.1 candidates 0
2.1 outcome end
2.1 message 1c Insert, swipe or try another card
2.1 end done
2.1 log 1 00a404000e325041592e5359532e444446303100
";

#[test]
fn a_probe_hears_all_lanes(rt: HostRuntime) -> Result<(), Fail> {
    let document = spelled(&rt, "", BY_TURNS)?;
    let mut deaf = Deaf { left: 20 };
    let left = probed(&rt, "/run", document.as_bytes(), &[], &[], &mut deaf)?;
    assert!(rt; deaf.left == 1);
    let end = End {
        number: 0,
        said: "",
        text: SILENCED,
    };
    check(&rt, "a probe", &left, &end)
}
