//! What a session holds before its first transaction.
ghost use Rattle.std.specs.Prelude.{◌≡◌, [], false};

use crate::steps::{LastLink, Presentation, Round, Selection};
use apdu::{Command, PPSE_NAME, Response, SUCCESS};
use arrayvec::ArrayVec;
use block_reader::ReaderEnd;
use ep_base::{CardKind, FRAME_16};
use kernel_port::Activation;
use poll_activate::{Poll, Rounds};
use pre_processing::Indicators;
use rf_frame::Activated;
use select_rules::Candidates;
use tlv_arena::Arena;

/// A round that no one makes.
fn no_round() -> Round {
    Round {
        poll: Poll::open(0),
        left: 0,
        collided: false,
    }
}

/// A link that was never opened.
fn no_link() -> LastLink
    ensures { result.was_opened ≡ false }
{
    let card = Activated {
        kind: CardKind::A,
        id: ArrayVec::new(),
        fsc: FRAME_16,
        fwi: 0,
    };
    LastLink {
        end: ReaderEnd::open(&card, 0),
        was_opened: false,
    }
}

/// A response without data.
fn no_response() -> Response {
    let Ok(response) = Response::of(&SUCCESS.to_be_bytes()) else {
        unreachable!()
    };
    response
}

/// A selection that waits for nothing.
fn no_selection() -> Selection {
    let indicators = Indicators {
        not_allowed: false,
        status: false,
        zero: false,
        floor: false,
        cvm: false,
    };
    let given = Activation {
        kernel: 0,
        combination: 0,
        name: ArrayVec::new(),
        indicators,
        ttq: None,
        fci: ArrayVec::new(),
    };
    Selection {
        command: Command::select(&PPSE_NAME),
        response: no_response(),
        given,
        rest: Candidates::none(),
    }
}

impl Presentation {
    /// Without a link, and without the end of a round.
    pub fn open(arena: Arena) -> Presentation
        ensures arena { result.arena ≡ arena }
        ensures link { result.link.was_opened ≡ false }
        ensures rounds { result.rounds.items ≡ [] }
    {
        Presentation {
            arena,
            link: no_link(),
            rounds: Rounds::new(),
            round: no_round(),
            selection: no_selection(),
        }
    }
}
