//! Refutations of cycles that are not confirmed.
//!
//! [`refutation_of`] returns a refutation of a cycle exactly if the cycle is not confirmed. From
//! the first places of the cycle's members on, a search derives the places that each reordering has
//! to contain: a prefix of each thread. When it derives the present place of a member, the entries
//! that this place needs are a step of the refutation, and the member moves to its next place. If
//! the search ends before, some reordering reaches the present places. One [`DerivationSearch`]
//! serves many refutations, so that its memory is allocated once. Start reading at `search.rt`.
#![tactic(auto)]

mod entry_table;
mod extract;
mod forks;
mod refute;
mod search;
mod tables;

pub use refute::refutation_of;
pub use search::DerivationSearch;
