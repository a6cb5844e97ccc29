//! Checks a witness or a refutation against a trace, without closures, trace index or search.
//!
//! [`check`] reads a trace, a list of places and the places of an instance. It returns `Reaches`
//! exactly if the list is a sync-preserving reordering of the trace that reaches the instance, else
//! the first test that fails, with its place. It takes only types from the other crates, those of
//! `trace_model`. Start reading at `order_rules.rt`, which has the tests.
//!
//! [`EvidenceChecker`] reads a trace once, and then witnesses or refutations of many cycles. For a
//! cycle with the steps of a refutation it returns `Valid` exactly if they are a refutation of the
//! cycle, else the first step that is wrong, with the reason. It takes the numbers of dependencies
//! from the crate `dependencies`. Start reading at `reasons.rt`, which has the tests.
#![tactic(auto)]

mod checking;
mod facts;
mod last_places;
pub mod laws;
mod numbers;
mod order_rules;
mod reasons;
mod refutation_verdict;
mod refuting;
mod sections;
mod verdict;
mod walked;

pub use checking::check;
pub use refutation_verdict::{RefutationFault, RefutationVerdict};
pub use refuting::EvidenceChecker;
pub use verdict::{Fault, Verdict};
