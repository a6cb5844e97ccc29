//! The lock graph: for each lock, the numbers of the dependencies that hold it.
//!
//! [`LockGraph`] is the reverse index from held locks to dependencies, so its edges are the edges
//! of the lock graph of Havelund 2000. Its contract: the successors of a lock are exactly the
//! numbers of the dependencies that hold it, ascending. Start reading at [`LockGraph`].
#![tactic(auto)]

mod graph;
mod lists;

pub use graph::LockGraph;
