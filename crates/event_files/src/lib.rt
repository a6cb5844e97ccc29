//! Event files, witness files and explained cycles: the text formats of traces and of evidence.
//!
//! [`read_events`] returns the first events of a file, at most one more than a trace may have; its
//! contract says that they are the first of the events whose words are exactly those of the file.
//! Start reading there. [`split_lines`] cuts a file into blocks of lines. [`read_witness`] reads
//! the input of the replay checker. [`push_refutation`] writes the sentences of a refutation.
//! [`read_explained`] reads rows with their witnesses and refutations; its contract says that the
//! lines of the file are exactly those of what it returns.
#![tactic(auto)]

mod event_file;
mod explained_file;
mod explained_lines;
mod explained_reading;
mod explanations;
pub mod laws;
mod numbered_text;
mod numbers;
mod refused;
mod refutation_text;
mod witness_file;

pub use event_file::{
    event, line_count, lines_of, push_events, read_events, split_lines, words_of,
};
pub use explained_file::read_explained;
pub use explanations::{
    Evidence, Explained, ExplainedFile, ExplainedMember, ExplainedStep, ReportHead,
};
pub use numbers::parse_number;
pub use refused::{ExplainedRefused, FileRefused};
pub use refutation_text::{push_entry, push_refutation};
pub use witness_file::{WitnessFile, read_witness};
