//! What follows the answer to SELECT PPSE.
ghost use Rattle.std.specs.Prelude.{◌≡◌, ℕ, ◌+◌, ◌≤◌, List, ◌++◌, true, length};
ghost use Rattle.ep_base.specs.declared.limits.TheConstants.{PAIRS};
ghost use Rattle.arrayvec.specs.ArrayVec.{array_vec_len};
ghost use Rattle.ep_rules.specs.EntryPoint.Candidates.{Candidate};
ghost use Rattle.ep_base.specs.Objects.Directory.{Entry};
ghost use Rattle.ep_rules.specs.EntryPoint.PreProcessing.{PreparedOne};
ghost use Rattle.ep_rules.specs.EntryPoint.Event.{Event as EventData};
ghost use Rattle.ep_rules.specs.EntryPoint.Talk.{Talk, Result};
ghost use Rattle.select_rules.specs.Left.{StandsFor};
ghost use Rattle.session_phases.specs.Plain.{wish_of};
ghost use Rattle.session_phases.specs.Room.{HasRoom};
ghost use Rattle.session_phases.specs.Told.{told_by};
ghost use Rattle.session_phases.specs.Wishes.{Before, Lists, Wished, RestartsAt, selects_left, serves_wish};

use crate::events::note;
use crate::selecting::select_left;
use crate::steps::{Selection, Wish};
use kernel_port::{Event, EventList, Kernels};
use ppse::read_directory;
use pre_processing::Prepared;
use select_rules::Candidates;
use tlv_arena::Arena;

/// How many candidates there are.
fn count_of(candidates: &Candidates) -> u16
    ensures counts { (ones : List PreparedOne) (entries : List Entry) (left : List Candidate) → StandsFor ones entries candidates.now left → result ≡ length left }
    ensures most { length candidates.now ≤ PAIRS }
{
    candidates.len() as u16
}

/// The candidates of the directory that was answered, of which the first is selected.
pub(crate) fn after_directory<K: Kernels>(
    selection: &mut Selection,
    prepared: &Prepared,
    arena: &mut Arena,
    kernels: &K,
    events: &mut EventList,
) -> Wish
    requires events { array_vec_len events.old + 3 ≤ 24 }
    requires room { HasRoom arena.old.contents }
    ensures wishes { (talk : Talk) (results : List Result) (before : List EventData)
        → Before K.steps prepared.now.list (λ n. K.steps.restarts (K.state kernels.now) ≤ n) (Lists K.steps prepared.now.list (K.state kernels.now) selection.old.response) talk results (before ++ told_by events.old.items)
        → Wished K.steps prepared.now.list (K.state kernels.now) arena.new.objects talk results (before ++ told_by events.new.items) (wish_of result selection.new) }
    ensures serves { serves_wish (K.is_open kernels.now) (K.is_fresh kernels.now) (wish_of result selection.new) ≡ true }
    ensures room { HasRoom arena.new.contents }
    ensures falls { selects_left (wish_of result selection.new) ≤ PAIRS }
    ensures restarts { (n m : ℕ) → m ≤ n → RestartsAt (wish_of result selection.new) n m }
    ensures count { array_vec_len events.new ≤ array_vec_len events.old + 3 }
{
    arena.clear();
    let directory = read_directory(arena, &selection.response);
    selection.rest = Candidates::build(prepared, arena, &directory);
    note(events, Event::Candidates(count_of(&selection.rest)));
    select_left(selection, prepared, arena, kernels, events)
}
