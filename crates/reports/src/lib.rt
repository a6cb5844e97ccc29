//! The rows of a report and its text.
//!
//! A [`Row`] is a cycle with the dependencies of its members and, if it is confirmed, the instance
//! and its witness. [`report_text`] returns the text of a report, or `TooLong` exactly if the text
//! has more than `MAX_REPORT` bytes. One walk over the rows (`write.rt`) serves both to measure the
//! text and to write it, so the text is written into memory of exactly its size. A report can also
//! be had in pieces, so that its text is never in memory: [`begin_report`] measures it, and a
//! [`RowCursor`] gives the text of its rows. Start reading at `report.rt`.
#![tactic(auto)]

mod buffer;
mod measure;
mod numeral_cache;
mod piece;
mod report;
mod row;
mod row_cursor;
mod run_measure;
mod sink;
mod write;

pub use buffer::TextBuffer;
pub use measure::{confirmed_in, row_size};
pub use piece::Piece;
pub use report::{ReportStart, TextRefused, begin_report, head_text, is_too_long, report_text};
pub use row::{BareRow, Found, Row};
pub use row_cursor::RowCursor;
