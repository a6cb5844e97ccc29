//! Tables that are emptied in constant time and keep their memory.
//!
//! A table has for each key the position at which the key may be listed. A position counts only if
//! the key is listed there, so a table is empty once its list is. The positions of earlier searches
//! stay, so a key is rarely hashed again.

ghost use Rattle.std.specs.Prelude.{◌≡◌, ◌==◌, ℕ, true, false, slice_get, None, OnOk, Some, if◌then◌else◌};
ghost use Rattle.explain.specs.declared.tables.KeyPrefix.{KeyPrefix};
ghost use Rattle.explain.specs.Tables.{listed_at, position_of_key, prefix_at};

use number_map::NumberMap;
use std::alloc::Global;
use std::collections::hash_map::RandomState;
use trace_model::{NoMemory, Place, Reason};

/// A position for each key. A key without one has no entry, or one with `None`.
pub(crate) type PositionTable = NumberMap<Option<usize>>;

/// Sets the position of a key.
///
/// # Errors
/// `NoMemory` if an allocation fails.
pub(crate) fn put_position(
    table: &mut PositionTable,
    key: u32,
    position: usize,
) -> Result<(), NoMemory>
    ensures { OnOk result ((other : ℕ) → position_of_key table.new other ≡
        (if key == other then Some position else position_of_key table.old other)) }
{
    table.reserve(key, None)?;
    table.set(key, Some(position));
    Ok(())
}

/// Returns the position of a key, or `None` if there is none.
pub(crate) fn position_of_key(table: &PositionTable, key: u32) -> Option<usize>
    ensures { result ≡ position_of_key table.now key }
{
    match table.get_ref(key) {
        Some(position) => *position,
        None => None,
    }
}

/// The places of a thread up to `last`. A place of them without an entry has this reason.
#[derive(Clone, Copy)]
pub(crate) struct Prefix {
    pub(crate) last: Place,
    pub(crate) reason: Reason,
}

/// A prefix with its key.
#[derive(Clone, Copy)]
pub(crate) struct KeyPrefix {
    pub(crate) key: u32,
    pub(crate) prefix: Prefix,
}

/// A prefix for each key that is listed.
#[derive(Drop)]
pub(crate) struct PrefixTable {
    /// The position at which a key may be listed.
    pub(crate) positions: PositionTable,
    pub(crate) listed: Vec<KeyPrefix>,
}

impl PrefixTable {
    /// Returns a table without prefixes. Does not allocate.
    pub(crate) fn new(alloc: Global, state: RandomState) -> PrefixTable
        ensures { (key : ℕ) → prefix_at result key ≡ None }
    {
        PrefixTable {
            positions: NumberMap::new(alloc, state),
            listed: Vec::new(alloc),
        }
    }

    /// Removes all prefixes.
    pub(crate) fn clear(&mut self)
        ensures { (key : ℕ) → prefix_at self.new key ≡ None }
    {
        self.listed.clear();
    }
}

/// Returns the prefix of a key at a position, or `None` if the key is not listed there.
fn listed_at(listed: &[KeyPrefix], key: u32, position: usize) -> Option<Prefix>
    ensures { result ≡ listed_at listed.now key position }
{
    match listed.get(position) {
        Some(known) if known.key == key => Some(known.prefix),
        _ => None,
    }
}

/// Returns whether the key is listed at a position.
fn is_listed(listed: &[KeyPrefix], key: u32, position: usize) -> bool
    ensures listed { result ≡ true →
        (known : KeyPrefix) × (slice_get listed.now position ≡ Some known) × (known.key ≡ key) }
    ensures not_listed { result ≡ false → (known : KeyPrefix) →
        slice_get listed.now position ≡ Some known → known.key ≡ key → ⊥ }
{
    match listed.get(position) {
        Some(known) => known.key == key,
        None => false,
    }
}

/// Sets the prefix of a key.
///
/// # Errors
/// `NoMemory` if an allocation fails.
pub(crate) fn put_prefix(table: &mut PrefixTable, key: u32, prefix: &Prefix) -> Result<(), NoMemory>
    ensures { OnOk result ((other : ℕ) → prefix_at table.new other ≡
        (if key == other then Some prefix.now else prefix_at table.old other)) }
{
    let known = KeyPrefix {
        key,
        prefix: *prefix,
    };
    let at = table.positions.reserve_position(key, None)?;
    if let Some(Some(position)) = table.positions.get_at(at)
        && is_listed(&table.listed, key, position)
    {
        table.listed[position] = known;
        return Ok(());
    }
    table.positions.set_at(at, Some(table.listed.len()));
    table.listed.push(known)?;
    Ok(())
}

/// Returns the prefix of a key, or `None` if there is none.
pub(crate) fn prefix_at(table: &PrefixTable, key: u32) -> Option<Prefix>
    ensures { result ≡ prefix_at table.now key }
{
    match position_of_key(&table.positions, key) {
        Some(position) => listed_at(&table.listed, key, position),
        None => None,
    }
}
