//! Sessions.
ghost use Rattle.std.specs.Prelude.{◌≡◌, ℕ, ◌<◌, ◌≤◌, [], ◌++◌, length, true, false, IfOk};
ghost use Rattle.arrayvec.specs.ArrayVec.{array_vec_len};
ghost use Rattle.ep_base.specs.Objects.Arena.{opened_arena};
ghost use Rattle.ep_base.specs.declared.limits.TheConstants.{ARENA_BYTES, ARENA_SLOTS, BETWEEN_TOGGLES, ROUNDS};
ghost use Rattle.ep_rules.specs.EntryPoint.Transaction.{transaction};
ghost use Rattle.ep_rules.specs.EntryPoint.Talk.{Talk};
ghost use Rattle.ep_rules.specs.EntryPoint.TransportRun.{Runs};
ghost use Rattle.ep_claim.specs.Lanes.Standing.{Standing, after_hearing, events_of, started};
ghost use Rattle.ep_rules.specs.EntryPoint.Became.{RanBy};
ghost use Rattle.poll_activate.specs.Meaning.{ends_of};
ghost use Rattle.rf_frame.specs.Meaning.{heard_of};
ghost use Rattle.session_phases.specs.Shown.{kept_of, kept_then};
ghost use Rattle.session_phases.specs.Told.{told_by};
ghost use Rattle.entry_session.specs.Meaning.{left_of, run_end_of};
ghost use Rattle.entry_session.specs.Causes.{Caused};
ghost use Rattle.entry_session.specs.Turns.{view_of, is_open, is_ask, turn_of, ShowsBeginCause, ShowsCause, StandsFor, Answers};

use crate::hearing::hear_task;
use crate::holding::{Session, Task, forget};
use crate::ran::Ran;
use crate::turn::Turn;
use crate::whole::run_whole;
use block_reader::Kept;
use ep_base::{ARENA_BYTES, ARENA_SLOTS, FrameBuf, NoMemory, Wave};
use kernel_port::{End, EventList, Events, Kernels};
use link::Transport;
use pre_processing::Prepared;
use rf_frame::{Ask, Heard, RoundEnd};
use session_phases::{Onward, Presentation, begin};
use std::alloc::Global;
use tlv_arena::Arena;

// What is asked by no one.
fn nothing() -> Ask {
    Ask {
        reset: false,
        wave: Wave::A,
        frame: FrameBuf::new(),
        wait: 0,
    }
}

impl<K: Kernels + Drop> Session<K> {
    /// A session in which no transaction is open, with an empty arena of `ARENA_BYTES` bytes and `ARENA_SLOTS` slots. No
    /// directory needs more.
    ///
    /// Errors: `NoMemory`.
    pub fn open(alloc: Global) -> Result<Session<K>, NoMemory>
        ensures empty { IfOk result (λ s. s.presentation.arena.contents ≡ opened_arena ARENA_BYTES ARENA_SLOTS) }
        ensures closed { IfOk result (λ s. is_open (view_of K.state K.is_open K.is_fresh s) ≡ false) }
    {
        let arena = Arena::open(alloc, ARENA_BYTES, ARENA_SLOTS)?;
        Ok(Session {
            presentation: Presentation::open(arena),
            task: None,
        })
    }

    /// Runs a transaction from its first event to its end, with the starts A to D of Entry Point (EMV Book B). A
    /// transaction that was open is dropped.
    ///
    /// It runs as the transaction's talk may run over this transport and before this taker of events, and `became`
    /// says what that comes to: where it ended, the events taken are exactly those of the transaction for the results
    /// that the transport gave, with the end of a link that failed.
    ///
    /// `Device` comes only where the transport's count of faults rose; then all events for the results before were
    /// taken. `EventsFailed` comes only where the count of the taker of events rose; then a first part of the events
    /// was taken and the next one was cut.
    pub fn run<T: Transport, E: Events>(
        &mut self,
        prepared: &Prepared,
        kernels: K,
        transport: &mut T,
        events: &mut E,
    ) -> Ran
        ensures runs { Runs T.steps E.steps
            (transaction K.steps prepared.now.txn_type prepared.now.amount prepared.now.list (K.state kernels)) [] (T.state transport.old) (E.state events.old)
            (left_of result (T.state transport.new) (E.state events.new)) }
        ensures became { RanBy T.steps E.steps
            (transaction K.steps prepared.now.txn_type prepared.now.amount prepared.now.list (K.state kernels)) [] (T.state transport.old) (E.state events.old)
            (left_of result (T.state transport.new) (E.state events.new)) (run_end_of result) }
        ensures cause { Caused (T.faults transport.old) (T.faults transport.new) (E.faults events.old) (E.faults events.new)
            (result ≡ Ran.Device) (result ≡ Ran.EventsFailed) }
        ensures same_reference { E.anchor events.new ≡ E.anchor events.old }
        ensures closed { is_open (view_of K.state K.is_open K.is_fresh self.new) ≡ false }
        ensures no_rounds { (view_of K.state K.is_open K.is_fresh self.new).rounds ≡ [] }
        ensures none_kept { kept_of (view_of K.state K.is_open K.is_fresh self.new).link ≡ [] }
    {
        self.task = None;
        self.presentation.link.was_opened = false;
        self.presentation.rounds.clear();
        run_whole(
            &mut self.presentation.selection,
            prepared,
            &mut self.presentation.arena,
            kernels,
            transport,
            events,
        )
    }

    /// Begins a transaction after Pre-Processing, with a reader of this FSDI, below 16, and says what is asked in its
    /// first exchange, or how it ended without one. The events up to then are put into `events`, which is empty before.
    pub fn start(
        &mut self,
        prepared: &Prepared,
        kernels: K,
        fsdi: u8,
        events: &mut EventList,
    ) -> Turn
        requires closed { is_open (view_of K.state K.is_open K.is_fresh self.old) ≡ false }
        requires code { fsdi < 16 }
        requires empty { array_vec_len events.old ≡ 0 }
        ensures stands { let talk = transaction K.steps prepared.now.txn_type prepared.now.amount prepared.now.list (K.state kernels) in
            StandsFor K.steps (view_of K.state K.is_open K.is_fresh self.new) talk fsdi (started talk) }
        ensures events { let talk = transaction K.steps prepared.now.txn_type prepared.now.amount prepared.now.list (K.state kernels) in
            told_by events.new.items ≡ events_of talk (started talk) }
        ensures answers { let talk = transaction K.steps prepared.now.txn_type prepared.now.amount prepared.now.list (K.state kernels) in
            Answers result fsdi talk (started talk) }
        ensures cause { ShowsBeginCause result (told_by events.new.items) }
        ensures is_open { is_open (view_of K.state K.is_open K.is_fresh self.new) ≡ is_ask result }
        ensures kept { kept_of (view_of K.state K.is_open K.is_fresh self.new).link ≡ [] }
    {
        let mut ask = nothing();
        match self.start_into(prepared, kernels, fsdi, events, &mut ask) {
            None => Turn::Ask(ask),
            Some(end) => Turn::Ended(end),
        }
    }

    /// The same, where what is asked is written into `ask`: `None`, or how it ended.
    pub fn start_into(
        &mut self,
        prepared: &Prepared,
        kernels: K,
        fsdi: u8,
        events: &mut EventList,
        ask: &mut Ask,
    ) -> Option<End>
        requires closed { is_open (view_of K.state K.is_open K.is_fresh self.old) ≡ false }
        requires code { fsdi < 16 }
        requires empty { array_vec_len events.old ≡ 0 }
        ensures stands { let talk = transaction K.steps prepared.now.txn_type prepared.now.amount prepared.now.list (K.state kernels) in
            StandsFor K.steps (view_of K.state K.is_open K.is_fresh self.new) talk fsdi (started talk) }
        ensures events { let talk = transaction K.steps prepared.now.txn_type prepared.now.amount prepared.now.list (K.state kernels) in
            told_by events.new.items ≡ events_of talk (started talk) }
        ensures answers { let talk = transaction K.steps prepared.now.txn_type prepared.now.amount prepared.now.list (K.state kernels) in
            Answers (turn_of result ask.new) fsdi talk (started talk) }
        ensures cause { ShowsBeginCause (turn_of result ask.new) (told_by events.new.items) }
        ensures is_open { is_open (view_of K.state K.is_open K.is_fresh self.new) ≡ is_ask (turn_of result ask.new) }
        ensures kept { kept_of (view_of K.state K.is_open K.is_fresh self.new).link ≡ [] }
    {
        match begin(
            prepared,
            &kernels,
            fsdi,
            &mut self.presentation,
            events,
            ask,
        ) {
            Onward::Goes(phase) => {
                self.task = Some(Task {
                    prepared: prepared.copy(),
                    kernels,
                    fsdi,
                    phase,
                });
                None
            }
            Onward::Ended(end) => {
                forget(&mut self.task);
                Some(end)
            }
        }
    }

    /// Takes what was heard in the exchange that was asked last, and says what is asked in the next one, or how the
    /// transaction ended. The events that come with it, at most 24, are put into `events`, which is empty before.
    pub fn advance(&mut self, heard: &Heard, events: &mut EventList) -> Turn
        requires opened { is_open (view_of K.state K.is_open K.is_fresh self.old) ≡ true }
        requires empty { array_vec_len events.old ≡ 0 }
        ensures stands { (talk : Talk) (fsdi : ℕ) (st : Standing) → StandsFor K.steps (view_of K.state K.is_open K.is_fresh self.old) talk fsdi st
            → StandsFor K.steps (view_of K.state K.is_open K.is_fresh self.new) talk fsdi (after_hearing fsdi talk (heard_of heard.now) st) }
        ensures events { (talk : Talk) (fsdi : ℕ) (st : Standing) → StandsFor K.steps (view_of K.state K.is_open K.is_fresh self.old) talk fsdi st
            → events_of talk st ++ told_by events.new.items ≡ events_of talk (after_hearing fsdi talk (heard_of heard.now) st) }
        ensures answers { (talk : Talk) (fsdi : ℕ) (st : Standing) → StandsFor K.steps (view_of K.state K.is_open K.is_fresh self.old) talk fsdi st
            → Answers result fsdi talk (after_hearing fsdi talk (heard_of heard.now) st) }
        ensures cause { (talk : Talk) (fsdi : ℕ) (st : Standing) → StandsFor K.steps (view_of K.state K.is_open K.is_fresh self.old) talk fsdi st
            → ShowsCause result (heard_of heard.now) st.doing (view_of K.state K.is_open K.is_fresh self.new).rounds (view_of K.state K.is_open K.is_fresh self.new).link
            (events_of talk (after_hearing fsdi talk (heard_of heard.now) st)) }
        ensures is_open { is_open (view_of K.state K.is_open K.is_fresh self.new) ≡ is_ask result }
        ensures kept { (talk : Talk) (fsdi : ℕ) (st : Standing) → StandsFor K.steps (view_of K.state K.is_open K.is_fresh self.old) talk fsdi st
            → kept_of (view_of K.state K.is_open K.is_fresh self.new).link ≡ kept_then (heard_of heard.now) st (kept_of (view_of K.state K.is_open K.is_fresh self.old).link) }
    {
        let mut ask = nothing();
        match self.advance_into(heard, events, &mut ask) {
            None => Turn::Ask(ask),
            Some(end) => Turn::Ended(end),
        }
    }

    /// The same, where what is asked is written into `ask`: `None`, or how it ended.
    pub fn advance_into(
        &mut self,
        heard: &Heard,
        events: &mut EventList,
        ask: &mut Ask,
    ) -> Option<End>
        requires opened { is_open (view_of K.state K.is_open K.is_fresh self.old) ≡ true }
        requires empty { array_vec_len events.old ≡ 0 }
        ensures stands { (talk : Talk) (fsdi : ℕ) (st : Standing) → StandsFor K.steps (view_of K.state K.is_open K.is_fresh self.old) talk fsdi st
            → StandsFor K.steps (view_of K.state K.is_open K.is_fresh self.new) talk fsdi (after_hearing fsdi talk (heard_of heard.now) st) }
        ensures events { (talk : Talk) (fsdi : ℕ) (st : Standing) → StandsFor K.steps (view_of K.state K.is_open K.is_fresh self.old) talk fsdi st
            → events_of talk st ++ told_by events.new.items ≡ events_of talk (after_hearing fsdi talk (heard_of heard.now) st) }
        ensures answers { (talk : Talk) (fsdi : ℕ) (st : Standing) → StandsFor K.steps (view_of K.state K.is_open K.is_fresh self.old) talk fsdi st
            → Answers (turn_of result ask.new) fsdi talk (after_hearing fsdi talk (heard_of heard.now) st) }
        ensures cause { (talk : Talk) (fsdi : ℕ) (st : Standing) → StandsFor K.steps (view_of K.state K.is_open K.is_fresh self.old) talk fsdi st
            → ShowsCause (turn_of result ask.new) (heard_of heard.now) st.doing (view_of K.state K.is_open K.is_fresh self.new).rounds (view_of K.state K.is_open K.is_fresh self.new).link
            (events_of talk (after_hearing fsdi talk (heard_of heard.now) st)) }
        ensures is_open { is_open (view_of K.state K.is_open K.is_fresh self.new) ≡ is_ask (turn_of result ask.new) }
        ensures kept { (talk : Talk) (fsdi : ℕ) (st : Standing) → StandsFor K.steps (view_of K.state K.is_open K.is_fresh self.old) talk fsdi st
            → kept_of (view_of K.state K.is_open K.is_fresh self.new).link ≡ kept_then (heard_of heard.now) st (kept_of (view_of K.state K.is_open K.is_fresh self.old).link) }
    {
        let Some(task) = &mut self.task else {
            unreachable!()
        };
        match hear_task(task, &mut self.presentation, heard, events, ask) {
            None => None,
            Some(end) => {
                forget(&mut self.task);
                Some(end)
            }
        }
    }

    /// How the rounds of the last Start B ended, in order. They stay until the next transaction begins.
    pub fn rounds(&self) -> &[RoundEnd]
        ensures ends { ends_of result.now ≡ (view_of K.state K.is_open K.is_fresh self.now).rounds }
        ensures most { length result.now ≤ ROUNDS }
    {
        self.presentation.rounds.as_slice()
    }

    /// What the reader's end of the last link lends: its exchanges since its block number's last toggle. They stay until
    /// the next transaction begins.
    pub fn since_toggle(&self) -> &[Kept]
        ensures exchanges { result.now ≡ kept_of (view_of K.state K.is_open K.is_fresh self.now).link }
        ensures most { length result.now ≤ BETWEEN_TOGGLES }
    {
        let link = &self.presentation.link;
        if link.was_opened {
            link.end.since_toggle()
        } else {
            &[]
        }
    }
}
