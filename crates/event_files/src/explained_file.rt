//! Files of explained cycles.
ghost use Rattle.std.specs.Prelude.{◌≡◌, IfErr, IfOk, map};
ghost use Rattle.event_files.specs.ExplainedFile.{IsExplainedText, IsOnlyExplainedText, IsOnlyTextOf, IsTextOf, RefusesExplained, RefusesLines, is_kept, is_merge_mark, unskipped_lines};
ghost use Rattle.event_files.specs.ExplainedReading.{ReadsLine, stated_reading};
ghost use Rattle.event_files.specs.ExplainedText.{contents_of};

use crate::event_file::{has_words, lines_of};
use crate::explained_lines::line_in;
use crate::explained_reading::Reading;
use crate::explanations::ExplainedFile;
use crate::refused::ExplainedRefused;
use crate::witness_file::after_last;
use std::alloc::Global;
use trace_model::NoMemory;

/// Returns whether the line says that an agent merged cycles.
fn is_merge_mark(line: &[u8]) -> bool
    ensures { result ≡ is_merge_mark line.now }
{
    line.starts_with(b"    and ")
}

/// Returns whether the line is not skipped. Lines without words, comments, and lines that begin
/// with four spaces, which agents add, are skipped.
fn is_kept(line: &[u8]) -> bool
    ensures { result ≡ is_kept line.now }
{
    is_merge_mark(line) || (has_words(line) && !line.starts_with(b"    "))
}

/// Reads the next line, if it is not skipped. Returns `None` if no file has it there.
///
/// # Errors
///
/// `NoMemory` if an allocation fails.
fn read_line(alloc: Global, reading: Reading, line: &[u8]) -> Result<Option<Reading>, NoMemory>
    ensures { IfOk result (ReadsLine line.now (stated_reading reading)) }
{
    if !is_kept(line) {
        return Ok(Some(reading));
    }
    let Some(stated) = line_in(alloc, line)? else {
        return Ok(None);
    };
    reading.read(alloc, stated)
}

/// Returns the contents of a file with these lines. See [`read_explained`].
fn read_lines(alloc: Global, lines: &[&[u8]]) -> Result<ExplainedFile, ExplainedRefused>
    ensures read { IfOk result (λ explained.
        IsTextOf (contents_of explained) (unskipped_lines (map (λ line. line.now) lines.now))) }
    ensures unique { IfOk result (λ explained.
        IsOnlyTextOf (contents_of explained) (unskipped_lines (map (λ line. line.now) lines.now))) }
    ensures refused { IfErr result (RefusesLines (map (λ line. line.now) lines.now)) }
{
    let mut reading = Reading::new(alloc);
    let mut number = 0usize;
    for line in lines {
        number = number.saturating_add(1);
        if is_merge_mark(line) {
            return Err(ExplainedRefused::Merged(number));
        }
        let Some(next) = read_line(alloc, reading, line)? else {
            return Err(ExplainedRefused::Line(number));
        };
        reading = next;
    }
    match reading.finish()? {
        Some(explained) => Ok(explained),
        None => Err(ExplainedRefused::Line(after_last(lines))),
    }
}

/// Returns the contents of a file of explained cycles: the first line of a report, or none, and
/// then the lines of each cycle as in a report, with those of a refutation after a potential one.
/// Skipped are lines without words, comments, and lines that begin with four spaces.
///
/// # Errors
///
/// - `Line` with the number of the first line that is not understood, counted from 1. If a line is
///   missing, this is one more than the number of lines.
/// - `Merged` with the number of a line that begins with four spaces and `and `, if all lines
///   before it are understood. An agent writes it for cycles that it left out.
/// - `NoMemory` if an allocation fails.
pub fn read_explained(alloc: Global, file: &[u8]) -> Result<ExplainedFile, ExplainedRefused>
    ensures read { IfOk result (λ explained. IsExplainedText explained file.now) }
    ensures unique { IfOk result (λ explained. IsOnlyExplainedText explained file.now) }
    ensures refused { IfErr result (RefusesExplained file.now) }
{
    let lines = lines_of(alloc, file)?;
    read_lines(alloc, &lines)
}
