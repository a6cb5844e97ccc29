//! The map, and the look-up of a number's position in it.

ghost use Rattle.std.specs.Prelude.{◌≡◌, ℕ, Some, None, IsSome, IfSome, is_some, true, [], cond, nat_eq, unwrap_or, option_copied, IfOk, OnOk, OnErr};
ghost use Rattle.std.specs.Option.{option_copied_mut};
ghost use Rattle.std.specs.Map.{lookup, set_value};
ghost use Rattle.std.specs.Borrow.{sem, LendsIf};
ghost use Rattle.number_map.specs.Positions.{HasNumberAt};
ghost use Rattle.number_map.specs.contracts.map.NumberMap.{the_row};

use crate::growing_cache::GrowingCache;
use indexmap::IndexMap;
use indexmap::map::Entry;
use std::alloc::{AllocError, Global};
use std::collections::hash_map::RandomState;
use std::marker::Model;

/// The entries, in the order in which they were added.
type Entries<V> = IndexMap<u32, V, RandomState>;

/// A hash map from `u32` to `V`. Contracts see the entries, in the order in which they were added.
#[derive(Drop)]
pub struct NumberMap<V: Drop> {
    entries: Entries<V>,
    cache: GrowingCache,
}

impl<V: Drop> Model for NumberMap<V> {
    ghost use Rattle.std.specs.Prelude.{List, ℕ};
    ghost use Rattle.std.specs.Coded.{coded×, coded_list, coded_ℕ};

    ghost Value = { List (ℕ × V) };

    ghost coded = { coded_list (coded× coded_ℕ V.code) };

    ghost view = { λ m. m.entries.entries };
}

/// Returns whether the entry at `position` is that of `number`.
#[inline(always)]
fn is_at<V>(entries: &Entries<V>, position: usize, number: u32) -> bool
    ensures { result ≡ true → HasNumberAt entries.now.entries number (Some position) }
{
    match entries.get_index(position) {
        Some((known, _)) => *known == number,
        None => false,
    }
}

/// Returns the position of `number`, or `None` if it has no entry. Tries `candidate` first.
#[inline(always)]
fn position_of<V>(entries: &Entries<V>, candidate: usize, number: u32) -> Option<usize>
    ensures { HasNumberAt entries.now.entries number result }
{
    if is_at(entries, candidate, number) {
        return Some(candidate);
    }
    uncached_position_of(entries, number)
}

/// Returns the position that `number` has if the numbers were added in order, from 0 or from 1, or
/// `None` if it is at neither.
#[inline(always)]
fn position_in_order<V>(entries: &Entries<V>, number: u32) -> Option<usize>
    ensures { IfSome result (λ i. HasNumberAt entries.now.entries number (Some i)) }
{
    let from_zero = number as usize;
    if is_at(entries, from_zero, number) {
        return Some(from_zero);
    }
    let from_one = from_zero.saturating_sub(1);
    if is_at(entries, from_one, number) {
        return Some(from_one);
    }
    None
}

/// Returns the position of `number`. Hashes it only if `position_in_order` does not find it.
#[inline(never)]
fn uncached_position_of<V>(entries: &Entries<V>, number: u32) -> Option<usize>
    ensures { HasNumberAt entries.now.entries number result }
{
    match position_in_order(entries, number) {
        Some(position) => Some(position),
        None => entries.get_index_of(&number),
    }
}

impl<V: Drop> NumberMap<V> {
    /// Returns an empty map. Does not allocate.
    pub fn new(alloc: Global, state: RandomState) -> NumberMap<V>
        ensures { result ≡ [] }
    {
        NumberMap {
            entries: IndexMap::with_hasher(alloc, state),
            cache: GrowingCache::new(alloc),
        }
    }

    /// Returns the position of `number`, or `None` if it has no entry. Does not allocate.
    #[inline(always)]
    pub fn position(&self, number: u32) -> Option<usize>
        ensures { HasNumberAt self.now number result }
    {
        position_of(&self.entries, self.cache.candidate(number), number)
    }

    /// Returns the value of `number`, or `None` if it has no entry. Does not allocate.
    #[inline(always)]
    pub fn get_ref(&self, number: u32) -> Option<&V>
        ensures { option_copied result ≡ lookup (nat_eq number) self.now }
    {
        match self.position(number) {
            Some(position) => match self.entries.get_index(position) {
                Some((_, value)) => Some(value),
                None => None,
            },
            None => None,
        }
    }

    /// Returns the value of `number` for writing, or `None` if it has no entry. Does not allocate.
    #[inline(always)]
    pub fn get_mut(&mut self, number: u32) -> Option<&mut V>
        ensures* writes_back { sem 𝓛 (LendsIf (the_row V.row) V.row self.entry result
            (set_value (nat_eq number) self.old) self.old) }
        ensures value { option_copied_mut result ≡ lookup (nat_eq number) self.old }
    {
        match position_of(&self.entries, self.cache.candidate(number), number) {
            Some(position) => self.entries.get_index_mut(position),
            None => None,
        }
    }

    /// Returns the position of `number` as `position` does, and caches it.
    #[inline(always)]
    fn find_position(&mut self, number: u32) -> Option<usize>
        ensures position { HasNumberAt self.old number result }
        ensures unchanged { self.new ≡ self.old }
    {
        let candidate = self.cache.candidate(number);
        if is_at(&self.entries, candidate, number) {
            return Some(candidate);
        }
        let position = uncached_position_of(&self.entries, number);
        if let Some(position) = position {
            self.cache.record(number, position);
        }
        position
    }

    /// Returns whether `number` has an entry, and caches its position. A caller with a large
    /// default value calls it before `reserve`, and makes the value only if it is needed. Does not
    /// allocate.
    #[inline(always)]
    pub fn find(&mut self, number: u32) -> bool
        ensures found { result ≡ is_some (lookup (nat_eq number) self.old) }
        ensures unchanged { self.new ≡ self.old }
    {
        self.find_position(number).is_some()
    }

    /// Makes an entry with the value `default` for `number`, if it has none. A caller that reads a
    /// missing entry as `default` sees no change.
    ///
    /// # Errors
    ///
    /// `AllocError` if an allocation fails, which happens only if `number` has no entry. The map is
    /// unchanged.
    #[inline(always)]
    pub fn reserve(&mut self, number: u32, default: V) -> Result<(), AllocError>
        ensures shown { (q : ℕ) → unwrap_or (lookup (nat_eq q) self.new) default ≡
            unwrap_or (lookup (nat_eq q) self.old) default }
        ensures ok { OnOk result (IsSome (lookup (nat_eq number) self.new)) }
        ensures kept { (q : ℕ) → IsSome (lookup (nat_eq q) self.old) →
            IsSome (lookup (nat_eq q) self.new) }
        ensures err { OnErr result (self.new ≡ self.old) }
        ensures absent { OnErr result (lookup (nat_eq number) self.old ≡ None) }
    {
        self.reserve_position(number, default)?;
        Ok(())
    }

    /// Makes an entry as `reserve` does, and returns its position. The position is that of `number`
    /// from then on, since entries are neither moved nor removed.
    ///
    /// # Errors
    ///
    /// As `reserve`. The map is unchanged.
    #[inline(always)]
    pub fn reserve_position(&mut self, number: u32, default: V) -> Result<usize, AllocError>
        ensures shown { (q : ℕ) → unwrap_or (lookup (nat_eq q) self.new) default ≡
            unwrap_or (lookup (nat_eq q) self.old) default }
        ensures ok { OnOk result (IsSome (lookup (nat_eq number) self.new)) }
        ensures position { IfOk result (λ i. HasNumberAt self.new number (Some i)) }
        ensures kept { (q : ℕ) → IsSome (lookup (nat_eq q) self.old) →
            IsSome (lookup (nat_eq q) self.new) }
        ensures err { OnErr result (self.new ≡ self.old) }
        ensures absent { OnErr result (lookup (nat_eq number) self.old ≡ None) }
    {
        let candidate = self.cache.candidate(number);
        if is_at(&self.entries, candidate, number) {
            return Ok(candidate);
        }
        self.reserve_uncached(number, default)
    }

    /// Makes an entry as `reserve_position` does, and caches its position.
    #[inline(never)]
    fn reserve_uncached(&mut self, number: u32, default: V) -> Result<usize, AllocError>
        ensures shown { (q : ℕ) → unwrap_or (lookup (nat_eq q) self.new) default ≡
            unwrap_or (lookup (nat_eq q) self.old) default }
        ensures ok { OnOk result (IsSome (lookup (nat_eq number) self.new)) }
        ensures position { IfOk result (λ i. HasNumberAt self.new number (Some i)) }
        ensures kept { (q : ℕ) → IsSome (lookup (nat_eq q) self.old) →
            IsSome (lookup (nat_eq q) self.new) }
        ensures err { OnErr result (self.new ≡ self.old) }
        ensures absent { OnErr result (lookup (nat_eq number) self.old ≡ None) }
    {
        let position = match position_in_order(&self.entries, number) {
            Some(position) => position,
            None => self.reserve_hashed(number, default)?,
        };
        self.cache.record(number, position);
        Ok(position)
    }

    /// Makes an entry as `reserve_position` does, and hashes the number once.
    fn reserve_hashed(&mut self, number: u32, default: V) -> Result<usize, AllocError>
        ensures shown { (q : ℕ) → unwrap_or (lookup (nat_eq q) self.new) default ≡
            unwrap_or (lookup (nat_eq q) self.old) default }
        ensures ok { OnOk result (IsSome (lookup (nat_eq number) self.new)) }
        ensures position { IfOk result (λ i. HasNumberAt self.new number (Some i)) }
        ensures kept { (q : ℕ) → IsSome (lookup (nat_eq q) self.old) →
            IsSome (lookup (nat_eq q) self.new) }
        ensures err { OnErr result (self.new ≡ self.old) }
        ensures absent { OnErr result (lookup (nat_eq number) self.old ≡ None) }
    {
        let count = self.entries.len();
        match self.entries.entry(number)? {
            Entry::Occupied(entry) => Ok(entry.index()),
            Entry::Vacant(entry) => {
                self.cache.fit(count + 1)?;
                entry.insert(default);
                Ok(count)
            }
        }
    }

    /// Sets the value of `number`, which must have an entry. Does not allocate.
    #[inline(always)]
    pub fn set(&mut self, number: u32, value: V)
        requires { IsSome (lookup (nat_eq number) self.old) }
        ensures { (q : ℕ) → lookup (nat_eq q) self.new ≡
            cond (nat_eq number q) (Some value) (lookup (nat_eq q) self.old) }
    {
        if let Some(position) = self.position(number) {
            self.set_at(position, value);
        }
    }

    /// Sets the value of the number at `position`. Does not allocate.
    #[inline(always)]
    pub fn set_at(&mut self, position: usize, value: V)
        ensures { (number q : ℕ) → HasNumberAt self.old number (Some position) →
            lookup (nat_eq q) self.new ≡
            cond (nat_eq number q) (Some value) (lookup (nat_eq q) self.old) }
    {
        if let Some(known) = self.entries.get_index_mut(position) {
            *known = value;
        }
    }
}

impl<V: Copy> NumberMap<V> {
    /// Returns a copy of the value of `number`, or `None` if it has no entry. Does not allocate.
    #[inline(always)]
    pub fn get(&self, number: u32) -> Option<V>
        ensures { result ≡ lookup (nat_eq number) self.now }
    {
        self.get_ref(number).copied()
    }

    /// Returns a copy of the value of the number at `position`. Does not allocate.
    #[inline(always)]
    pub fn get_at(&self, position: usize) -> Option<V>
        ensures { (number : ℕ) → HasNumberAt self.now number (Some position) →
            result ≡ lookup (nat_eq number) self.now }
    {
        match self.entries.get_index(position) {
            Some((_, value)) => Some(*value),
            None => None,
        }
    }
}
