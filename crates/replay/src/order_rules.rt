//! The tests of a sync-preserving reordering, at one place of the list.

ghost use Rattle.std.specs.Prelude.{◌≡◌, ◌<◌, ◌↔◌, length, slice_get, IsTrue, Some};
ghost use Rattle.std.specs.List.{Contains};
ghost use Rattle.trace_model.specs.declared.traces.event.Op.{Op};
ghost use Rattle.trace_model.specs.Theory.Trace.{Does};
ghost use Rattle.replay.specs.declared.verdict.Fault.{Fault};
ghost use Rattle.trace_model.specs.Theory.Held as held_words;
ghost use Rattle.replay.specs.Known.{KnowsWalk};
ghost use Rattle.replay.specs.Tests.{NoForkIn, MissesPlace, MissesEarlier, MissesThread, IsClosedIn, SeesWriter, LeavesOpen, HasLater, Breaks};
ghost use Rattle.replay.specs.Verdict.{IsFirst, order_tests, instance_tests};

use crate::facts::Facts;
use crate::last_places::last;
use crate::verdict::Fault;
use crate::walked::Walked;
use trace_model::{Event, Op, Place};

/// The places before the tested one in the list, with the facts about them and about the trace.
#[derive(Drop)]
pub(crate) struct Known<'a> {
    pub(crate) trace: &'a [Event],
    /// The places before the tested one. Only contracts read them; the code reads `walked`.
    pub(crate) passed: &'a [Place],
    pub(crate) facts: &'a Facts,
    pub(crate) walked: &'a Walked,
}

/// Returns the entry of the place in a table.
fn entry(table: &[Option<Place>], place: Place) -> Option<Place>
    requires { place < length table.now }
    ensures { slice_get table.now place ≡ Some result }
{
    table[place.get() as usize]
}

impl<'a> Known<'a> {
    /// Returns the event at the place.
    fn event(&self, place: Place) -> Event
        requires { place < length self.now.trace.now }
        ensures { slice_get self.now.trace.now place ≡ Some result }
    {
        self.trace[place.get() as usize]
    }

    /// Returns the lock on which a section begins at the place.
    pub(crate) fn begun(&self, place: Place) -> Option<u32>
        requires known { KnowsWalk self.now }
        requires in_trace { place < length self.now.trace.now }
        ensures { result ≡ held_words.begun_lock self.now.trace.now place }
    {
        self.facts.begins[place.get() as usize]
    }

    /// Returns whether the place is before the tested one in the list.
    fn is_passed(&self, place: Place) -> bool
        requires known { KnowsWalk self.now }
        requires in_trace { place < length self.now.trace.now }
        ensures { IsTrue result ↔ Contains self.now.passed.now place }
    {
        self.walked.has(place)
    }

    /// Returns whether an earlier place of its thread is missing.
    fn misses_earlier(&self, place: Place) -> bool
        requires known { KnowsWalk self.now }
        requires in_trace { place < length self.now.trace.now }
        ensures { IsTrue result ↔ MissesEarlier self.now.trace.now self.now.passed.now place }
    {
        match entry(&self.facts.previous, place) {
            Some(previous) => !self.is_passed(previous),
            None => false,
        }
    }

    /// Returns whether a place of the thread is missing.
    fn misses_last(&self, thread: u32) -> bool
        requires { KnowsWalk self.now }
        ensures { IsTrue result ↔ MissesPlace self.now.trace.now self.now.passed.now thread
            (length self.now.trace.now) }
    {
        match last(&self.facts.lasts, thread) {
            Some(place) => !self.is_passed(place),
            None => false,
        }
    }

    /// Returns whether the fork of the thread is missing.
    fn misses_fork(&self, thread: u32) -> bool
        requires { KnowsWalk self.now }
        ensures { IsTrue result ↔ NoForkIn self.now.trace.now self.now.passed.now thread }
    {
        match last(&self.walked.forks, thread) {
            Some(_) => false,
            None => true,
        }
    }

    /// Returns whether the fork or a place of the thread is missing.
    fn misses_thread(&self, thread: u32) -> bool
        requires { KnowsWalk self.now }
        ensures { IsTrue result ↔ MissesThread self.now.trace.now self.now.passed.now thread }
    {
        self.misses_fork(thread) || self.misses_last(thread)
    }

    /// Returns whether the release of the outermost acquire was passed.
    fn is_closed(&self, place: Place) -> bool
        requires known { KnowsWalk self.now }
        requires in_trace { place < length self.now.trace.now }
        ensures { IsTrue result ↔ IsClosedIn self.now.trace.now self.now.passed.now place }
    {
        match entry(&self.facts.releases, place) {
            Some(release) => self.is_passed(release),
            None => false,
        }
    }

    /// Returns whether an outermost acquire of the lock was passed without its release. If so, the
    /// last one was.
    fn leaves_open(&self, lock: u32) -> bool
        requires { KnowsWalk self.now }
        ensures { IsTrue result ↔ LeavesOpen self.now.trace.now self.now.passed.now lock }
    {
        match last(&self.walked.acquires, lock) {
            Some(place) => !self.is_closed(place),
            None => false,
        }
    }

    /// Returns whether a later outermost acquire of the lock was passed. If so, the last one is
    /// later.
    fn has_later(&self, place: Place, lock: u32) -> bool
        requires { KnowsWalk self.now }
        ensures { IsTrue result ↔ HasLater self.now.trace.now self.now.passed.now place lock }
    {
        match last(&self.walked.acquires, lock) {
            Some(other) => place.get() < other.get(),
            None => false,
        }
    }

    /// Returns whether the last passed write to the variable is the writer of the read.
    fn sees_writer(&self, place: Place, variable: u32) -> bool
        requires known { KnowsWalk self.now }
        requires reads { Does self.now.trace.now place (Op.Read variable) }
        ensures { IsTrue result ↔ SeesWriter self.now.trace.now self.now.passed.now place variable }
    {
        last(&self.walked.writes, variable) == entry(&self.facts.writers, place)
    }

    /// Returns whether the test `ForkOrder` fails.
    fn breaks_fork_order(&self, place: Place) -> bool
        requires known { KnowsWalk self.now }
        requires in_trace { place < length self.now.trace.now }
        ensures { IsTrue result ↔
            Breaks Fault.ForkOrder self.now.trace.now self.now.passed.now place }
    {
        let thread = self.event(place).thread;
        thread != 0 && self.misses_fork(thread)
    }

    /// Returns whether the test `JoinOrder` fails.
    fn breaks_join_order(&self, place: Place) -> bool
        requires known { KnowsWalk self.now }
        requires in_trace { place < length self.now.trace.now }
        ensures { IsTrue result ↔
            Breaks Fault.JoinOrder self.now.trace.now self.now.passed.now place }
    {
        match self.event(place).op {
            Op::Join(thread) => self.misses_thread(thread),
            _ => false,
        }
    }

    /// Returns whether the test `WrongWriter` fails.
    fn breaks_writer(&self, place: Place) -> bool
        requires known { KnowsWalk self.now }
        requires in_trace { place < length self.now.trace.now }
        ensures { IsTrue result ↔
            Breaks Fault.WrongWriter self.now.trace.now self.now.passed.now place }
    {
        match self.event(place).op {
            Op::Read(variable) => !self.sees_writer(place, variable),
            _ => false,
        }
    }

    /// Returns whether the test `Overlap` fails.
    fn breaks_sections(&self, place: Place) -> bool
        requires known { KnowsWalk self.now }
        requires in_trace { place < length self.now.trace.now }
        ensures { IsTrue result ↔
            Breaks Fault.Overlap self.now.trace.now self.now.passed.now place }
    {
        match self.begun(place) {
            Some(lock) => self.leaves_open(lock),
            None => false,
        }
    }

    /// Returns whether the test `LockOrder` fails.
    fn breaks_lock_order(&self, place: Place) -> bool
        requires known { KnowsWalk self.now }
        requires in_trace { place < length self.now.trace.now }
        ensures { IsTrue result ↔
            Breaks Fault.LockOrder self.now.trace.now self.now.passed.now place }
    {
        match self.begun(place) {
            Some(lock) => self.has_later(place, lock),
            None => false,
        }
    }

    /// Returns the first test that fails at the next place of the list.
    pub(crate) fn order_fault(&self, place: Place) -> Option<Fault>
        requires { KnowsWalk self.now }
        ensures { IsFirst order_tests self.now.trace.now self.now.passed.now place result }
    {
        if place.get() as usize >= self.trace.len() {
            return Some(Fault::OutOfTrace);
        }
        if self.is_passed(place) {
            return Some(Fault::Repeated);
        }
        if self.misses_earlier(place) {
            return Some(Fault::ThreadOrder);
        }
        if self.breaks_fork_order(place) {
            return Some(Fault::ForkOrder);
        }
        if self.breaks_join_order(place) {
            return Some(Fault::JoinOrder);
        }
        if self.breaks_writer(place) {
            return Some(Fault::WrongWriter);
        }
        if self.breaks_sections(place) {
            return Some(Fault::Overlap);
        }
        if self.breaks_lock_order(place) {
            return Some(Fault::LockOrder);
        }
        None
    }

    /// Returns the first test that fails at a place of the instance, after the whole list.
    pub(crate) fn instance_fault(&self, place: Place) -> Option<Fault>
        requires { KnowsWalk self.now }
        ensures { IsFirst instance_tests self.now.trace.now self.now.passed.now place result }
    {
        if place.get() as usize >= self.trace.len() {
            return Some(Fault::OutOfTrace);
        }
        if self.is_passed(place) {
            return Some(Fault::TooFar);
        }
        if self.misses_earlier(place) {
            return Some(Fault::NotReached);
        }
        None
    }
}
