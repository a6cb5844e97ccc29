//! The lock tables of a trace that grows: held sets, dependencies and the lock graph.
//!
//! [`LockTables`] keeps the three in step. Its contract: after `record` of each event, or `extend`
//! with several, they are the tables of the trace, and `share` returns the dependencies and the
//! graph of a prefix. Start reading at [`LockTables`].
#![tactic(auto)]

mod parts;
mod steps;
mod tables;

pub use parts::LockParts;
pub use tables::LockTables;
