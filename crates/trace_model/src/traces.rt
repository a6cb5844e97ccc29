//! Events, places, owners of locks, cycles, instances and bounds.

pub(crate) mod bound;
pub(crate) mod cycle;
pub(crate) mod event;
pub(crate) mod instance;
pub(crate) mod owner;
pub(crate) mod place;
