//! The propagation on which closures of a trace are computed.
//!
//! A set of places that is closed under "earlier in the same thread" is one prefix of each thread.
//! It is stored as one count for each thread, its front. The closure of some places is the least
//! such set that also contains what its places require: writers of reads, forks, ends of joined
//! threads, and releases of earlier sections on the same lock. [`Requirements`] lists once for a
//! trace what each place requires. [`Propagation`] is a worklist algorithm: it raises the front of
//! a thread to include a required place, adds the thread to the worklist, and repeats until a
//! fixpoint is reached. Each front only grows.
//!
//! While fronts grow, [`Member`] pointers advance: each member of a cycle is the first place of its
//! dependency that is not included. Start reading at `propagation.rt`.
#![tactic(auto)]

mod epoch_array;
mod fronts;
mod item_cache;
mod members;
mod overlay;
mod positions;
mod propagation;
mod requirements;
mod slot_table;
mod threads;

pub use fronts::{Front, Fronts, gathered};
pub use members::{Member, greater};
pub use overlay::Overlay;
pub use positions::Positions;
pub use propagation::{Context, Propagation};
pub use requirements::{Requirements, ThreadPrefix, prefix_before};
pub use segments::Steps;
pub use slot_table::SlotTable;
pub use threads::last_place;
