//! The events of a block of lines, after the admission check.
ghost use Rattle.std.specs.Prelude.{IfErr, IfOk};
ghost use Rattle.trace_model.specs.Theory.Trace.{Trace};
ghost use Rattle.wellformed.specs.Tables.{FollowEvents};
ghost use Rattle.event_files.specs.EventFile.{pieces_at, RefusesLines};
ghost use Rattle.commands.specs.AdmittedBlocks.{IsBlockAfter};

use event_files::{FileRefused, read_events};
use std::alloc::Global;
use trace_model::Event;
use wellformed::{AdmissionTables, FirstUnlawful};

/// The events of a block of lines, after the admission check.
#[derive(Drop)]
pub(crate) enum AdmittedBlock {
    /// The events are lawful. With the tables of the check after them.
    Lawful(Vec<Event>, AdmissionTables),
    /// The first event that is not lawful after those before it.
    Refused(FirstUnlawful),
}

/// Parses a block of lines, and passes its events through the admission check.
///
/// # Errors
/// - `Line` with the number of the block's first line that is not understood.
/// - `NoMemory` if an allocation fails.
pub(crate) fn read_block(
    alloc: Global,
    text: &[u8],
    admission: AdmissionTables,
) -> Result<AdmittedBlock, FileRefused>
    requires { (s : Trace) × FollowEvents admission s }
    ensures block { IfOk result (λ block. (s : Trace) → FollowEvents admission s →
        IsBlockAfter text.now s block) }
    ensures refused { IfErr result (RefusesLines (pieces_at 10 text.now)) }
{
    let events = read_events(alloc, text)?;
    let mut tables = admission;
    match tables.admit_all(&events)? {
        None => Ok(AdmittedBlock::Lawful(events, tables)),
        Some(first) => Ok(AdmittedBlock::Refused(first)),
    }
}
