//! The admission check: decides which events may follow the recorded ones.
//!
//! [`AdmissionTables`] has what the admission check needs of the recorded events. `check` returns
//! exactly the first refusal that applies, `reserve` allocates for an event, and `record` adds it
//! without allocating. `admit` does all three and looks up the event's thread and lock once.
//! `admit_all` admits events up to the first that is not lawful, and [`first_unlawful`] finds that
//! event in a whole list. Start reading at [`AdmissionTables`].
//!
//! Public API that the program does not call: [`Gate`], the gate with its list of events, and
//! [`flat`], which tests that a trace has no inner acquire.
#![tactic(auto)]

mod entries;
mod flat_traces;
mod gate;
mod owners;
mod tables;
mod threads;
mod whole_lists;

pub use flat_traces::flat;
pub use gate::Gate;
pub use tables::AdmissionTables;
pub use whole_lists::{FirstUnlawful, first_unlawful};
