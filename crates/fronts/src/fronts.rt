//! Fronts: the number of included places of each thread.

ghost use Rattle.std.specs.Prelude.{◌≡◌, ℕ, ◌+◌, ◌^◌, ◌<◌, ◌≤◌, max, not, IfOk, MatchOption};
ghost use Rattle.std.specs.List.{Contains};
ghost use Rattle.trace_model.specs.Theory.Closure.{ascending_places};
ghost use Rattle.fronts.specs.Overlays.{front_of};
ghost use Rattle.fronts.specs.State.{IsNextRange, IsSetRun, included_count, included_set, included_places};

use crate::members::greater;
use crate::overlay::Overlay;
use crate::positions::Positions;
use segments::Steps;
use std::alloc::Global;
use std::marker::Model;
use std::ops::Range;
use std::sync::Arc;
use std::sync::ledger::Ledger;
use trace_model::{NoMemory, Place};

/// The number of included places of one thread. It grows only by one call, which includes one place
/// and adds one to a count of [`Steps`].
#[derive(Clone, Copy)]
pub struct Front {
    count: u32,
}

impl Model for Front {
    ghost use Rattle.std.specs.Prelude.{ℕ};

    ghost Value = { ℕ };

    ghost view = { λ f. f.count };

    ghost inverse = { λ n. record { count = n } };
}

impl Front {
    /// Returns a front that includes no place.
    pub(crate) fn new() -> Front
        ensures { result ≡ 0 }
    {
        Front { count: 0 }
    }

    /// Returns the number of included places.
    pub fn count(self) -> u32
        ensures { result ≡ self }
    {
        self.count
    }

    /// Includes the next place of the thread.
    fn take<L: Ledger>(&mut self, steps: &mut Steps<L>)
        requires { self.old + 1 < 2 ^ 32 }
        ensures front { self.new ≡ self.old + 1 }
        ensures steps { steps.new ≡ steps.old + 1 }
    {
        steps.tick();
        self.count += 1;
    }

    /// Returns the front with the thread's next places included, up to `count` places.
    pub(crate) fn raised<L: Ledger>(self, count: u32, steps: &mut Steps<L>) -> Front
        ensures front { result ≡ max self count }
        ensures steps { steps.new + self ≡ steps.old + result }
    {
        let mut front = self;
        for _place in self.count..count {
            front.take(steps);
        }
        front
    }
}

/// A set of places that contains a prefix of each thread, all before some place. It takes four
/// bytes for each thread; the table of positions is shared.
#[derive(Drop)]
pub struct Fronts {
    pub(crate) positions: Arc<Positions, Global>,
    pub(crate) counts: Vec<Front>,
    pub(crate) end: u32,
}

impl Fronts {
    ghost use Rattle.std.specs.Prelude.{◌<◌, IsTrue};
    ghost use Rattle.std.specs.Arc.{arc_value};
    ghost use Rattle.fronts.specs.Slots.{among};
    ghost use Rattle.fronts.specs.State.{included_count, included_set};

    /// Returns the number of included places of the thread with this slot.
    fn count(&self, slot: u32) -> u32
        ensures { result ≡ included_count self.now slot }
    {
        match self.counts.get(slot as usize) {
            Some(front) => front.count(),
            None => 0,
        }
    }

    /// Returns whether `place` is in the set. A place past the end of the trace is not. Does not
    /// allocate.
    pub fn has(&self, place: Place) -> bool
        ensures { result ≡ included_set self.now place }
    {
        place.get() < self.end && self.counts_in(place)
    }

    /// Returns a place that is greater than all places of the set. Does not allocate.
    pub fn end(&self) -> Place
        ensures { (p : ℕ) → IsTrue (included_set self.now p) → p < result }
    {
        Place::new(self.end)
    }

    /// Returns an upper bound for the size of the set, as a hint for reserving memory. Does not
    /// allocate.
    pub fn most(&self) -> usize {
        self.counts.iter().fold(0, |most: usize, front| {
            most.saturating_add(front.count() as usize)
        })
    }

    /// Returns a range of consecutive places of the set, which has no place from `at` on before the
    /// range, or `None` if it has no place from `at` on. Does not allocate.
    pub fn range_from(&self, at: u32) -> Option<Range<u32>>
        ensures { MatchOption result (included_places self.now
            ≡ ascending_places (included_set self.now) at)
            (λ range. IsNextRange self.now at range.start range.end) }
    {
        let start = self.next(at, true);
        if start < self.end {
            Some(start..self.next(start, false))
        } else {
            None
        }
    }

    /// Returns the first place from `at` on that is in the set, or that is not if `is_in` is false.
    /// If there is none before the end of the set, returns the end or `at`, whichever is later.
    fn next(&self, at: u32, is_in: bool) -> u32
        ensures later { at ≤ result }
        ensures within { at ≤ self.now.end → result ≤ self.now.end }
        ensures before { (p : ℕ) → at ≤ p → p < result →
            included_set self.now p ≡ not is_in }
        ensures first { result < self.now.end → included_set self.now result ≡ is_in }
    {
        let mut place = at;
        while place < self.end {
            let run = self.run_from(place);
            let (first, past) = if is_in {
                (place, run.rest)
            } else {
                (run.rest, run.end)
            };
            if first < past {
                return first;
            }
            place = run.end;
        }
        place
    }

    /// Returns the run of places from `place` on, which must be before the end of the set.
    #[inline(always)]
    fn run_from(&self, place: u32) -> SetRun
        requires { place < self.now.end }
        ensures { IsSetRun self.now place result.rest result.end }
    {
        let Some(run) = self.positions.run_at(Place::new(place)) else {
            return SetRun {
                rest: place,
                end: self.end,
            };
        };
        let end = run.end.min(self.end);
        let included = self.count(run.prefix.slot).saturating_sub(run.prefix.count);
        SetRun {
            rest: place + included.min(end - place),
            end,
        }
    }

    /// Returns whether `place` is among the counted places of its thread.
    fn counts_in(&self, place: Place) -> bool
        ensures { result
            ≡ among (arc_value self.now.positions) (included_count self.now) place }
    {
        match self.positions.get(place) {
            Some(prefix) => prefix.count < self.count(prefix.slot),
            None => false,
        }
    }
}

/// Places of a run: those before `rest` are in the set, those from there up to `end` are not.
#[derive(Clone, Copy)]
struct SetRun {
    rest: u32,
    end: u32,
}

/// Returns the greatest of the places, or 0.
fn greatest(places: &[Place]) -> u32
    ensures { (p : ℕ) → Contains places.now p → p ≤ result }
{
    let mut greatest = 0;
    for place in places {
        greatest = greater(greatest, place.get());
    }
    greatest
}

/// Returns the fronts of `overlay` over `under`, up to the greatest of `places`.
///
/// # Errors
/// `NoMemory` if an allocation fails.
pub fn gathered(
    alloc: Global,
    positions: Arc<Positions, Global>,
    under: &Overlay,
    overlay: &Overlay,
    count: u32,
    places: &[Place],
) -> Result<Fronts, NoMemory>
    ensures end { IfOk result (λ fronts. (p : ℕ) → Contains places.now p → p ≤ fronts.end) }
    ensures positions { IfOk result (λ fronts. fronts.positions ≡ positions) }
    ensures fronts { IfOk result (λ fronts. (a : ℕ) → a < count →
        included_count fronts a ≡ front_of under.now overlay.now a) }
{
    let mut counts = Vec::with_capacity(alloc, count as usize)?;
    for slot in 0..count {
        counts.push(overlay.front(under, slot))?;
    }
    Ok(Fronts {
        positions,
        counts,
        end: greatest(places),
    })
}
