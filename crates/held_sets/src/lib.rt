//! The locks that each thread holds, and their depths.
//!
//! [`HeldTable`] is the table. Its contract: if it is updated at each acquire and release, then it
//! has the held set of each thread after the trace ([`laws::held_follows`]). [`HeldSet`] is an
//! ascending set of at most `MAX_HELD` locks. Start reading at [`HeldTable`].
#![tactic(auto)]

mod holding;
pub mod laws;
mod set;
mod table;

pub use set::HeldSet;
pub use table::HeldTable;
