//! Several lanes as they run: what each has to do, one exchange of one lane per turn, whoever answers it, and each turn's
//! lines, which are pushed to a sink. Each lane's own field answers, with a probe, or the trace of an earlier run does (this
//! project's own).
#![tactic(auto)]

mod answering;
mod ending;
mod jobs;
mod laws;
mod lines;
mod opening;
mod replaying;
mod run;
mod tracing;
mod turning;
mod writing;

pub use ending::ReplayEnd;
pub use jobs::{LaneJobs, works_of};
pub use laws::{
    mismatches_differ, one_end, one_trace, own_trace_matches, replays_stay, replays_stop,
    runs_tell_traces, texts_grow,
};
pub use replaying::replay_lanes;
pub use run::report_lanes;
