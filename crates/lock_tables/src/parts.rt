//! The parts of the lock tables that a snapshot has.

use dependencies::DepTable;
use lock_graph::LockGraph;
use std::alloc::Global;
use std::sync::Arc;

/// The dependencies of a prefix of a trace with their places, and a graph of these dependencies and
/// perhaps later ones.
#[derive(Drop)]
pub struct LockParts {
    pub dependencies: DepTable,
    pub graph: Arc<LockGraph, Global>,
}
