//! The vocabulary of the product: events, places, held locks, dependencies, cycles, and the
//! requests and replies of a session.
//!
//! The definitions are in `specs/Theory` (traces, sync-preserving reorderings, closures, cycles,
//! rows) and `specs/Protocol` (frames, the machine, its runs). The functions of [`laws`] state the
//! main theorems about them; each has the laws as its contract and no body. Start reading at
//! `specs/Theory/Trace.antt`, then at `laws`.
#![tactic(auto)]

pub mod laws;
mod limits;
mod messages;
mod refusal;
mod refutations;
mod traces;

pub use limits::{
    MAX_BOUND, MAX_CYCLES, MAX_DEPTH, MAX_EVENTS, MAX_FORKS, MAX_HELD, MAX_MEMBERS, MAX_QUESTIONS,
    MAX_REPORT, MAX_THREADS, MIN_BOUND,
};
pub use messages::batch::{EventBatch, MAX_BATCH};
pub use messages::report::ReportText;
pub use messages::session::{Fault, Reply, Request};
pub use messages::status::QuestionStatus;
pub use messages::step::BoardStep;
pub use refusal::{NoMemory, Refusal, refusal_name};
pub use refutations::{Derivation, Derived, Reason, Refutation, RefutationStep};
pub use traces::bound::Bound;
pub use traces::cycle::Cycle;
pub use traces::event::{Event, Op};
pub use traces::instance::Instance;
pub use traces::owner::Owner;
pub use traces::place::{Place, PlaceList};
