//! Reads the lines of explained cycles one after the other.
ghost use Rattle.std.specs.Bool.{Decides};
ghost use Rattle.std.specs.Prelude.{◌≡◌, ◌<◌, [], None, IfOk, length, map, option_map};
ghost use Rattle.event_files.specs.ExplainedLines.{conclusion, entry, head, member, places, row, stated_line};
ghost use Rattle.event_files.specs.ExplainedReading.{AreEnded, IsEnd, IsNextStatedLine, between, cycle_state, stated_reading, stated_state};
ghost use Rattle.event_files.specs.ExplainedText.{stated_cycle, stated_member};
ghost use Rattle.event_files.specs.Refutations.{last_derived_place};

use crate::explained_lines::ExplainedLine;
use crate::explanations::{
    Evidence, Explained, ExplainedFile, ExplainedMember, ExplainedStep, ReportHead,
};
use std::alloc::Global;
use trace_model::{Cycle, Derivation, Derived, NoMemory, Place, Reason};

/// What was read of the cycle whose lines are read.
#[derive(Drop)]
pub(crate) enum State {
    /// Nothing: a cycle may begin.
    Between,
    /// Its numbers, whether it is confirmed, and some of its members.
    Members(Cycle, bool, Vec<ExplainedMember>),
    /// All members of a confirmed cycle. Its witness is missing.
    Unwitnessed(Cycle, Vec<ExplainedMember>),
    /// All members of a potential cycle, steps, and the entries of a step without its conclusion.
    Steps(Cycle, Vec<ExplainedMember>, Vec<ExplainedStep>, Vec<Derived>),
}

/// What was read of a file: the first line of a report, cycles with all their lines, and lines of
/// another cycle.
#[derive(Drop)]
pub(crate) struct Reading {
    head: Option<ReportHead>,
    cycles: Vec<Explained>,
    state: State,
}

/// Returns the state of a cycle after these members.
fn state_after(
    alloc: Global,
    cycle: Cycle,
    is_confirmed: bool,
    members: Vec<ExplainedMember>,
) -> State
    ensures { stated_state result ≡
        cycle_state cycle is_confirmed (map stated_member members.items) }
{
    if members.len() < cycle.numbers().len() {
        return State::Members(cycle, is_confirmed, members);
    }
    if is_confirmed {
        State::Unwitnessed(cycle, members)
    } else {
        State::Steps(cycle, members, Vec::new(alloc), Vec::new(alloc))
    }
}

/// Adds the cycle of the state, if there is one. Returns `None` if it has not all its lines.
fn ended(mut cycles: Vec<Explained>, state: State) -> Result<Option<Vec<Explained>>, NoMemory>
    ensures { IfOk result (λ all. AreEnded (map stated_cycle cycles.items) (stated_state state)
        (option_map (λ v. map stated_cycle v.items) all)) }
{
    match state {
        State::Between => Ok(Some(cycles)),
        State::Steps(cycle, members, steps, entries) => {
            if !entries.is_empty() {
                return Ok(None);
            }
            cycles.push(Explained {
                cycle,
                members,
                evidence: Evidence::Refutation(steps),
            })?;
            Ok(Some(cycles))
        }
        _ => Ok(None),
    }
}

/// Returns whether the place is that of the last entry.
fn is_last(entries: &[Derived], place: Place) -> bool
    ensures { Decides result ((0 < length entries.now) × (last_derived_place entries.now ≡ place)) }
{
    match entries.last() {
        Some(last) => last.place == place,
        None => false,
    }
}

impl Reading {
    /// Returns what is read before the first line.
    pub(crate) fn new(alloc: Global) -> Reading
        ensures { stated_reading result ≡ record { head = None; cycles = []; state = between } }
    {
        Reading {
            head: None,
            cycles: Vec::new(alloc),
            state: State::Between,
        }
    }

    /// Returns whether no line was read.
    fn is_empty(&self) -> bool
        ensures { Decides result (stated_reading self.now ≡
            record { head = None; cycles = []; state = between }) }
    {
        self.head.is_none() && self.cycles.is_empty() && matches!(self.state, State::Between)
    }

    /// Reads the first line of a report. Returns `None` if other lines were read.
    fn with_head(self, first: ReportHead) -> Option<Reading>
        ensures { IsNextStatedLine (stated_reading self) (head first) result }
    {
        if !self.is_empty() {
            return None;
        }
        let Reading {
            head: _,
            cycles,
            state,
        } = self;
        Some(Reading {
            head: Some(first),
            cycles,
            state,
        })
    }

    /// Reads the first line of a cycle. Returns `None` if the previous one has not all its lines.
    fn with_row(
        self,
        alloc: Global,
        cycle: Cycle,
        is_confirmed: bool,
    ) -> Result<Option<Reading>, NoMemory>
        ensures { IfOk result (IsNextStatedLine (stated_reading self) (row cycle is_confirmed)) }
    {
        let Reading {
            head,
            cycles,
            state,
        } = self;
        let Some(cycles) = ended(cycles, state)? else {
            return Ok(None);
        };
        let state = State::Members(cycle, is_confirmed, Vec::new(alloc));
        Ok(Some(Reading {
            head,
            cycles,
            state,
        }))
    }

    /// Reads a member. Returns `None` if no cycle has it there.
    fn with_member(self, alloc: Global, next: ExplainedMember) -> Result<Option<Reading>, NoMemory>
        ensures { IfOk result (IsNextStatedLine (stated_reading self) (member
            (stated_member next))) }
    {
        let Reading {
            head,
            cycles,
            state,
        } = self;
        let State::Members(cycle, is_confirmed, mut members) = state else {
            return Ok(None);
        };
        if next.place.is_some() != is_confirmed {
            return Ok(None);
        }
        members.push(next)?;
        let state = state_after(alloc, cycle, is_confirmed, members);
        Ok(Some(Reading {
            head,
            cycles,
            state,
        }))
    }

    /// Reads the places of a witness. Returns `None` if no cycle has them there.
    fn with_places(self, order: Vec<Place>) -> Result<Option<Reading>, NoMemory>
        ensures { IfOk result (IsNextStatedLine (stated_reading self) (places order.items)) }
    {
        let Reading {
            head,
            mut cycles,
            state,
        } = self;
        let State::Unwitnessed(cycle, members) = state else {
            return Ok(None);
        };
        cycles.push(Explained {
            cycle,
            members,
            evidence: Evidence::Witness(order),
        })?;
        Ok(Some(Reading {
            head,
            cycles,
            state: State::Between,
        }))
    }

    /// Reads an entry. Returns `None` if no cycle has it there.
    fn with_entry(self, place: Place, reason: Reason) -> Result<Option<Reading>, NoMemory>
        ensures { IfOk result (IsNextStatedLine (stated_reading self)
            (entry (record { place = place; reason = reason }))) }
    {
        let Reading {
            head,
            cycles,
            state,
        } = self;
        let State::Steps(cycle, members, steps, mut entries) = state else {
            return Ok(None);
        };
        entries.push(Derived { place, reason })?;
        Ok(Some(Reading {
            head,
            cycles,
            state: State::Steps(cycle, members, steps, entries),
        }))
    }

    /// Reads a conclusion. Returns `None` if no cycle has it there: its place is that of the last
    /// entry.
    fn with_conclusion(
        self,
        alloc: Global,
        thread: u32,
        place: Place,
    ) -> Result<Option<Reading>, NoMemory>
        ensures { IfOk result (IsNextStatedLine (stated_reading self) (conclusion thread place)) }
    {
        let Reading {
            head,
            cycles,
            state,
        } = self;
        let State::Steps(cycle, members, mut steps, entries) = state else {
            return Ok(None);
        };
        if !is_last(&entries, place) {
            return Ok(None);
        }
        let derivation = Derivation { entries };
        steps.push(ExplainedStep { thread, derivation })?;
        Ok(Some(Reading {
            head,
            cycles,
            state: State::Steps(cycle, members, steps, Vec::new(alloc)),
        }))
    }

    /// Reads the next line. Returns `None` if no file has it there.
    ///
    /// # Errors
    ///
    /// `NoMemory` if an allocation fails.
    pub(crate) fn read(
        self,
        alloc: Global,
        line: ExplainedLine,
    ) -> Result<Option<Reading>, NoMemory>
        ensures { IfOk result (IsNextStatedLine (stated_reading self) (stated_line line)) }
    {
        match line {
            ExplainedLine::Head(head) => Ok(self.with_head(head)),
            ExplainedLine::Row(cycle, is_confirmed) => self.with_row(alloc, cycle, is_confirmed),
            ExplainedLine::Member(member) => self.with_member(alloc, member),
            ExplainedLine::Places(places) => self.with_places(places),
            ExplainedLine::Entry(entry) => self.with_entry(entry.place, entry.reason),
            ExplainedLine::Conclusion(thread, place) => self.with_conclusion(alloc, thread, place),
        }
    }

    /// Returns what was read, or `None` if a line is missing.
    ///
    /// # Errors
    ///
    /// `NoMemory` if an allocation fails.
    pub(crate) fn finish(self) -> Result<Option<ExplainedFile>, NoMemory>
        ensures { IfOk result (IsEnd (stated_reading self)) }
    {
        let Reading {
            head,
            cycles,
            state,
        } = self;
        let Some(cycles) = ended(cycles, state)? else {
            return Ok(None);
        };
        if head.is_none() && cycles.is_empty() {
            return Ok(None);
        }
        Ok(Some(ExplainedFile { head, cycles }))
    }
}
