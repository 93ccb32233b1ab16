//! What becomes of a frame on its way down to the cards.
ghost use Rattle.std.specs.Prelude.{◌≡◌};
ghost use Rattle.std.specs.Option.{option_map};
ghost use Rattle.ep_base.specs.Air.Frame.{is_bare as bare};
ghost use Rattle.ep_base.specs.Link.Wire as plain;

use ep_base::{FrameBuf, Wave};
use rf_frame::{Burst, copy_frame, flip};

// Whether the wave's frames are without check bytes.
pub(crate) fn is_bare(wave: Wave) -> bool
    ensures { result ≡ bare wave }
{
    match wave {
        Wave::AShort | Wave::ABare => true,
        Wave::A | Wave::B => false,
    }
}

// A frame on which a burst fell as the cards hear it; one without check bytes that was damaged is heard by none.
pub(crate) fn burst_down(wave: Wave, frame: &FrameBuf, burst: Burst) -> Option<FrameBuf>
    ensures { option_map (λ f. f.items) result ≡ plain.burst_down burst.start burst.mask wave frame.now.items }
{
    let mut copy = copy_frame(frame);
    let hit = flip(wave, &mut copy, burst);
    if is_bare(wave) && hit {
        None
    } else {
        Some(copy)
    }
}
