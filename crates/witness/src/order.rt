//! Writes the witness of an instance from the fronts of its closure.

ghost use Rattle.std.specs.Prelude.{◌≡◌, List, ℕ, length, IfOk};
ghost use Rattle.trace_model.specs.Theory.Closure.{IsClosure, ascending_places};
ghost use Rattle.trace_model.specs.Theory.Reordering.{AreReached};
ghost use Rattle.trace_model.specs.Theory.Rows.{IsWitness};
ghost use Rattle.fronts.specs.State.{included_set};

use fronts::Fronts;
use std::alloc::Global;
use trace_index::TraceIndex;
use trace_model::{NoMemory, Place};

/// Returns the places of the fronts, ascending. If the fronts are the closure of reached places,
/// the result is a sync-preserving reordering that reaches them, and its places are in every other
/// one. It does not visit places after the greatest of the reached places. Part of the public API;
/// not called by the program, which prints the places from the fronts.
///
/// The caller passes the index of the trace over which the fronts were made.
///
/// # Errors
/// `NoMemory` if an allocation fails.
pub fn write_witness(
    alloc: Global,
    index: &TraceIndex,
    fronts: &Fronts,
) -> Result<Vec<Place>, NoMemory>
    ensures ascends { IfOk result
        (λ order. order.items
        ≡ ascending_places (included_set fronts.now) (length index.now.events)) }
    ensures smallest { IfOk result (λ order. (places : List ℕ) →
        IsClosure index.now.events places (included_set fronts.now) →
        AreReached index.now.events places →
        IsWitness index.now.events places order.items) }
{
    let len = index.len();
    let end = len.min(fronts.end().get() as usize);
    let mut places = Vec::with_capacity(alloc, fronts.most().min(end))?;
    for p in 0..end {
        let place = Place::new(p as u32);
        if fronts.has(place) {
            places.push(place)?;
        }
    }
    Ok(places)
}
