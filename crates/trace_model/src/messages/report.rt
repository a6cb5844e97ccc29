//! The text of a report.

use std::marker::Model;

/// The text of a report. Contracts see the list of its bytes.
#[derive(Debug, Drop)]
pub struct ReportText {
    bytes: Vec<u8>,
}

impl Model for ReportText {
    ghost use Rattle.std.specs.Prelude.{List, ℕ};

    ghost Value = { List ℕ };

    ghost view = { λ t. t.bytes.items };
}

impl ReportText {
    ghost use Rattle.std.specs.Prelude.{◌≡◌};

    /// Returns the text with these bytes.
    pub fn from_vec(bytes: Vec<u8>) -> ReportText
        ensures { result ≡ bytes.items }
    {
        ReportText { bytes }
    }

    /// Returns the bytes of the text.
    pub fn as_slice(&self) -> &[u8]
        ensures { result.now ≡ self.now }
    {
        self.bytes.as_slice()
    }
}
