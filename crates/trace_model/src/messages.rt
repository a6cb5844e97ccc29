//! Requests, replies, batches, reports, and the steps that a board publishes.

pub(crate) mod batch;
pub(crate) mod report;
pub(crate) mod session;
pub(crate) mod status;
pub(crate) mod step;
