//! Writes the text of a report to a sink, piece by piece.
//!
//! # Errors
//! Each function returns `Refused` if the sink refuses a piece of its text. The pieces before it
//! stay appended.

ghost use Rattle.std.specs.List.{flat_map, zip};
ghost use Rattle.fronts.specs.State.{included_places};
ghost use Rattle.reports.specs.Text.{number_list, member, member_line, placed_line, verdict, row_front, witness_end, row_text, about, counts};
ghost use Rattle.reports.specs.Sinks.{Appends};

use crate::row::{Found, Row};
use crate::sink::Sink;
use dependencies::Dependency;
use fronts::Fronts;
use trace_model::{Instance, Place};

/// Writes numbers in decimal, each after one space.
pub(crate) fn write_numbers<T: Sink>(text: &mut T, numbers: &[u32]) -> Result<(), T::Refused>
    ensures { Appends T.room text.old (number_list numbers.now) result text.new }
{
    for number in numbers {
        text.put_number(b" ", u64::from(*number))?;
    }
    Ok(())
}

/// Writes the places of the fronts in decimal, ascending, each after one space. Consecutive places
/// are written in one call.
pub(crate) fn write_places<T: Sink>(text: &mut T, fronts: &Fronts) -> Result<(), T::Refused>
    ensures { Appends T.room text.old (number_list (included_places fronts.now)) result text.new }
{
    let mut at = 0;
    while let Some(range) = fronts.range_from(at) {
        text.put_run(range.start, (range.end - range.start) as usize)?;
        at = range.end;
    }
    Ok(())
}

/// Writes a member of a cycle, without the end of its line.
pub(crate) fn write_member<T: Sink>(text: &mut T, dependency: &Dependency) -> Result<(), T::Refused>
    ensures { Appends T.room text.old (member dependency.now) result text.new }
{
    text.put_number(b"  thread ", u64::from(dependency.thread))?;
    text.put_number(b" lock ", u64::from(dependency.lock))?;
    text.put(b" holds")?;
    write_numbers(text, dependency.held.locks())
}

/// Writes the line of a member of a potential cycle.
pub(crate) fn write_member_line<T: Sink>(
    text: &mut T,
    dependency: &Dependency,
) -> Result<(), T::Refused>
    ensures { Appends T.room text.old (member_line dependency.now) result text.new }
{
    write_member(text, dependency)?;
    text.put(b"\n")
}

/// Writes the line of a member of a confirmed cycle.
pub(crate) fn write_placed_line<T: Sink>(
    text: &mut T,
    dependency: &Dependency,
    place: Place,
) -> Result<(), T::Refused>
    ensures { Appends T.room text.old (placed_line (dependency.now, place)) result text.new }
{
    write_member(text, dependency)?;
    text.put_number(b" place ", u64::from(place.get()))?;
    text.put(b"\n")
}

/// Writes the lines of the members of a potential cycle.
pub(crate) fn write_members<T: Sink>(
    text: &mut T,
    dependencies: &[Dependency],
) -> Result<(), T::Refused>
    ensures { Appends T.room text.old (flat_map member_line dependencies.now) result text.new }
{
    for dependency in dependencies {
        write_member_line(text, dependency)?;
    }
    Ok(())
}

/// Writes the lines of the members of a confirmed cycle.
pub(crate) fn write_placed<T: Sink>(
    text: &mut T,
    dependencies: &[Dependency],
    places: &Instance,
) -> Result<(), T::Refused>
    ensures { Appends T.room text.old
        (flat_map placed_line (zip dependencies.now places.now)) result text.new }
{
    for i in 0..dependencies.len().min(places.len()) {
        write_placed_line(text, &dependencies[i], places.get(i).unwrap())?;
    }
    Ok(())
}

/// Writes the verdict of a row, and the lines of its members. For a confirmed row it begins the
/// line of the witness.
pub(crate) fn write_verdict<T: Sink>(
    text: &mut T,
    dependencies: &[Dependency],
    found: &Option<Found>,
) -> Result<(), T::Refused>
    ensures { Appends T.room text.old (verdict dependencies.now found.now) result text.new }
{
    match found {
        None => {
            text.put(b" potential\n")?;
            write_members(text, dependencies)
        }
        Some(found) => {
            text.put(b" confirmed\n")?;
            write_placed(text, dependencies, &found.places)?;
            text.put(b"  witness")
        }
    }
}

/// Writes a row up to the places of its witness.
pub(crate) fn write_front<T: Sink>(text: &mut T, row: &Row) -> Result<(), T::Refused>
    ensures { Appends T.room text.old (row_front row.now) result text.new }
{
    text.put(b"cycle")?;
    write_numbers(text, row.cycle.numbers())?;
    write_verdict(text, row.dependencies.as_slice(), &row.found)
}

/// Writes the places of the witness of a row, if it has one, and the end of their line.
pub(crate) fn write_witness<T: Sink>(text: &mut T, found: &Option<Found>) -> Result<(), T::Refused>
    ensures { Appends T.room text.old (witness_end found.now) result text.new }
{
    match found {
        None => Ok(()),
        Some(found) => {
            write_places(text, &found.witness)?;
            text.put(b"\n")
        }
    }
}

/// Writes a row.
pub(crate) fn write_row<T: Sink>(text: &mut T, row: &Row) -> Result<(), T::Refused>
    ensures { Appends T.room text.old (row_text row.now) result text.new }
{
    write_front(text, row)?;
    write_witness(text, &row.found)
}

/// Writes rows.
pub(crate) fn write_rows<T: Sink>(text: &mut T, rows: &[Row]) -> Result<(), T::Refused>
    ensures { Appends T.room text.old (flat_map row_text rows.now) result text.new }
{
    for row in rows {
        write_row(text, row)?;
    }
    Ok(())
}

/// Writes the rows of all tasks.
pub(crate) fn write_tasks<T: Sink>(text: &mut T, tasks: &[Vec<Row>]) -> Result<(), T::Refused>
    ensures { Appends T.room text.old
        (flat_map (λ task. flat_map row_text task.items) tasks.now) result text.new }
{
    for task in tasks {
        write_rows(text, task.as_slice())?;
    }
    Ok(())
}

/// Writes the beginning of the first line: number, length and bound of the question.
pub(crate) fn write_about<T: Sink>(
    text: &mut T,
    question: u32,
    events: u32,
    bound: u8,
) -> Result<(), T::Refused>
    ensures { Appends T.room text.old (about question events bound) result text.new }
{
    text.put_number(b"question ", u64::from(question))?;
    text.put_number(b" length ", u64::from(events))?;
    text.put_number(b" bound ", u64::from(bound))
}

/// Writes the rest of the first line: the numbers of rows and of confirmed rows.
pub(crate) fn write_counts<T: Sink>(
    text: &mut T,
    cycles: u64,
    confirmed: u64,
) -> Result<(), T::Refused>
    ensures { Appends T.room text.old (counts cycles confirmed) result text.new }
{
    text.put_number(b" cycles ", cycles)?;
    text.put_number(b" confirmed ", confirmed)?;
    text.put(b"\n")
}
