//! Snapshots of a trace with their tables, and the findings computed from them.
//!
//! A [`Snapshot`] is a well-formed trace with its index, its dependencies and their graph, which
//! agree by type. A [`SnapshotBuilder`] builds one from blocks of events. A [`Finding`] holds
//! exactly the rows of its own events, bound and task, also by type. The book accepts findings
//! without depending on the search that computes them. Start reading at `snapshot.rt`.
#![tactic(auto)]

mod finding;
mod snapshot;
mod snapshot_builder;

pub use finding::Finding;
pub use snapshot::Snapshot;
pub use snapshot_builder::SnapshotBuilder;
