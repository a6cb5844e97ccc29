//! The entries of a search that one derived place needs.

ghost use Rattle.std.specs.Prelude.{◌≡◌, ℕ, ◌⊎◌, List, [], ◌∷◌, ◌++◌, length, slice_get, Some, IfOk, OnOk};
ghost use Rattle.std.specs.List.{Contains};
ghost use Rattle.trace_model.specs.Theory.Trace.{Trace};
ghost use Rattle.trace_model.specs.Theory.Refutation.{EndsAt, IsDerivation};
ghost use Rattle.explain.specs.DerivationSearch.{derived_by, HasIndices, IsSearch};
ghost use Rattle.explain.specs.Needed.{Names, IsNeeded, KeepsMarks, AreClosed};

use crate::search::DerivationSearch;
use std::alloc::Global;
use trace_model::{Derived, NoMemory, Place, Reason};

/// Marks the entry of a place, if it is derived.
fn mark(search: &DerivationSearch, needed: &mut Vec<bool>, place: Place)
    ensures sized { length needed.new.items ≡ length needed.old.items }
    ensures kept { KeepsMarks needed.old.items needed.new.items }
    ensures only { (i : ℕ) → IsNeeded needed.new.items i → IsNeeded needed.old.items i
        ⊎ (HasIndices search.now → slice_get (derived_by search.now) i ≡ Some place) }
    ensures marked { HasIndices search.now → Contains (derived_by search.now) place →
        length needed.old.items ≡ length search.now.entries.items →
        (j : ℕ) × (slice_get (derived_by search.now) j ≡ Some place)
        × IsNeeded needed.new.items j }
{
    match search.indices.get(&search.entries, place) {
        Some(index) if index < needed.len() => needed[index] = true,
        _ => {}
    }
}

/// Marks the entries of the derived places that a reason names.
fn mark_named(search: &DerivationSearch, needed: &mut Vec<bool>, reason: &Reason)
    ensures sized { length needed.new.items ≡ length needed.old.items }
    ensures kept { KeepsMarks needed.old.items needed.new.items }
    ensures only { (i : ℕ) → IsNeeded needed.new.items i → IsNeeded needed.old.items i
        ⊎ (HasIndices search.now → (q : ℕ) × Names reason.now q
        × (slice_get (derived_by search.now) i ≡ Some q)) }
    ensures marked { HasIndices search.now →
        length needed.old.items ≡ length search.now.entries.items →
        (q : ℕ) → Names reason.now q → Contains (derived_by search.now) q →
        (j : ℕ) × (slice_get (derived_by search.now) j ≡ Some q) × IsNeeded needed.new.items j }
{
    match reason {
        Reason::BeforeMember(_) => {}
        Reason::ThreadOrder(place) => mark(search, needed, *place),
        Reason::ForkJoin(place) => mark(search, needed, *place),
        Reason::ReadsFrom(place) => mark(search, needed, *place),
        Reason::Sections(first, second) => {
            mark(search, needed, *first);
            mark(search, needed, *second);
        }
    }
}

/// Marks the entries that marked entries need, from the last one back.
fn mark_all(search: &DerivationSearch, needed: &mut Vec<bool>)
    requires sized { length needed.old.items ≡ length search.now.entries.items }
    ensures sized { length needed.new.items ≡ length search.now.entries.items }
    ensures kept { KeepsMarks needed.old.items needed.new.items }
    ensures closed { (s : Trace) (places : List ℕ) → IsSearch s places search.now →
        AreClosed search.now needed.new.items 0 }
{
    let count = search.entries.len();
    for k in 0..count {
        let i = count - 1 - k;
        if needed[i] {
            mark_named(search, needed, &search.entries[i].reason);
        }
    }
}

/// Adds an entry at the end.
///
/// # Errors
/// `NoMemory` if an allocation fails.
fn add_entry(made: &mut Vec<Derived>, place: Place, reason: &Reason) -> Result<(), NoMemory>
    ensures { OnOk result (made.new.items ≡
        made.old.items ++ record { place = place; reason = reason.now } ∷ []) }
{
    made.push(Derived {
        place,
        reason: *reason,
    })?;
    Ok(())
}

/// Adds the marked entries to `made`, in their order, up to that of `place`.
///
/// # Errors
/// `NoMemory` if an allocation fails.
fn add_marked(
    search: &DerivationSearch,
    needed: &[bool],
    place: Place,
    made: &mut Vec<Derived>,
) -> Result<(), NoMemory>
    requires sized { length needed.now ≡ length search.now.entries.items }
    requires empty { made.old.items ≡ [] }
    ensures { OnOk result ((s : Trace) (places : List ℕ) → IsSearch s places search.now →
        AreClosed search.now needed.now 0 → (j : ℕ) → IsNeeded needed.now j →
        slice_get (derived_by search.now) j ≡ Some place →
        IsDerivation s places made.new.items × EndsAt made.new.items place) }
{
    for i in 0..search.entries.len() {
        if needed[i] {
            let entry = &search.entries[i];
            add_entry(made, entry.place, &entry.reason)?;
            if entry.place == place {
                return Ok(());
            }
        }
    }
    Ok(())
}

/// Returns the derivation of a derived place: the entries that it needs, in their order. Its own
/// entry is the last one.
///
/// # Errors
/// `NoMemory` if an allocation fails.
pub(crate) fn derivation_of(
    alloc: Global,
    search: &DerivationSearch,
    place: Place,
) -> Result<Vec<Derived>, NoMemory>
    ensures { IfOk result (λ made. (s : Trace) (places : List ℕ) → IsSearch s places search.now →
        Contains (derived_by search.now) place →
        IsDerivation s places made.items × EndsAt made.items place) }
{
    let mut needed = vec![in alloc; false; search.entries.len()]?;
    mark(search, &mut needed, place);
    mark_all(search, &mut needed);
    let mut made = Vec::new(alloc);
    add_marked(search, needed.as_slice(), place, &mut made)?;
    Ok(made)
}
