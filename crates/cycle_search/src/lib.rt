//! Finds the cycles of a table of dependencies.
//!
//! [`collect_cycles`] gives to a [`Collector`] all cycles whose first (least) member is a given
//! dependency, each once, in lexicographic order; [`cycles_from`] returns them as a list, and a
//! [`PausedSearch`] finds them in parts. All are one depth-first search over paths of dependencies.
//! Two tables prune it: the strongly connected components of the graph of locks ([`Components`]),
//! and for long searches the distance from each dependency back to the root. The result does not
//! depend on either table.
//!
//! Start reading at `search.rt`.
#![tactic(auto)]

mod absence;
mod acquirers;
mod ascending;
mod collector;
mod component_threads;
mod components;
mod costs;
mod distances;
mod edges;
mod kept;
mod lock_filter;
mod lock_numbers;
mod pace;
mod paused;
mod refused;
mod search;
mod search_input;
mod tarjan;

pub use absence::{has_few_cycles, has_no_cycle};
pub use collector::Collector;
pub use components::Components;
pub use paused::{MAX_VISITS, PausedSearch, Searched};
pub use refused::SearchRefused;
pub use search::{collect_cycles, cycles_from, cycles_within};
pub use search_input::SearchInput;
pub use trace_model::Cycle;
