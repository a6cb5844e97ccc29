//! Linked lists through a longer list: the entries that pass a test, each with a link to earlier
//! ones.
mod link;
mod next;
mod walk;

pub use link::{Link, Linked};
pub use next::link_after;
pub use walk::{count_passing, entry_at, last_below};
