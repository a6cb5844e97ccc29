//! The reply with a report whose text is not in memory.

ghost use Rattle.std.specs.Prelude.{◌≡◌, ◌≤◌, ◌++◌, length};
ghost use Rattle.trace_model.specs.declared.limits.TheConstants.{MAX_REPORT};

use crate::row_text::RowText;

/// The reply with the report about a question: the length of the report's text, its first line, and
/// the text of its rows, which is not in memory.
#[derive(Drop)]
pub struct ReportReply {
    pub question: u32,
    pub bytes: u32,
    pub first_line: Vec<u8>,
    pub rows: RowText,
    ghost measured: { bytes ≡ length (first_line.items ++ rows) },
    ghost few: { bytes ≤ MAX_REPORT },
}
