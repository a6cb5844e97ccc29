//! The witness of a reached instance: the places of its closure, ascending.
//!
//! [`write_witness`] returns it. If the fronts are the closure of reached places, the witness is a
//! sync-preserving reordering that reaches them, and its places are in every other such reordering.
//! This crate also exports the rows of a report and its text.
#![tactic(auto)]

mod order;

pub use order::write_witness;
pub use reports::{Found, Row, TextRefused, report_text};
