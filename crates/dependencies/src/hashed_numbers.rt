//! Hashes by number, and the numbers that have a hash.

ghost use Rattle.std.specs.Prelude.{◌≡◌, ℕ, ◌<◌, ◌==◌, ◌++◌, ◌∷◌, [], length, slice_get, Some, true, OnOk, IfSome};
ghost use Rattle.dependencies.specs.HashedNumbers.{last_passing};

use indexmap::IndexMap;
use segments::MaybeIndex;
use std::alloc::Global;
use std::marker::Model;
use trace_model::NoMemory;

/// The hash of a number, and the last earlier number with the same hash.
#[derive(Clone, Copy)]
struct Link {
    hash: u32,
    earlier: MaybeIndex,
}

/// The hashes of numbers 0, 1, .., and a hash map from each hash to its last number. Each number
/// links to the one before it with the same hash.
///
/// The map takes its default hasher, whose seed is fixed. A hash is a number of 32 bits that
/// depends on random keys (`hash_of`), so a stranger cannot choose hashes that collide in the map.
///
/// Contracts see the hashes, and whether memory is reserved for one more.
#[derive(Drop)]
pub(crate) struct HashedNumbers {
    lasts: IndexMap<u32, u32>,
    links: Vec<Link>,
}

impl Model for HashedNumbers {
    ghost use Rattle.dependencies.specs.HashedNumbers.{HashedView, hashes_of, has_number_room, AreLinked};

    ghost Value = { HashedView };

    ghost view = { λ n. record {
      hashes = hashes_of n.links.items;
      room = has_number_room n.lasts n.links;
    } };

    ghost invariant = { λ n. AreLinked n.lasts n.links.items };
}

/// Returns `number` as a link stores it. It must be below 4,294,967,295.
fn maybe_index(number: Option<u32>) -> MaybeIndex
    requires { IfSome number (λ n. n < 4294967295) }
    ensures { result ≡ number }
{
    match number {
        Some(number) => MaybeIndex::at(number),
        None => MaybeIndex::none(),
    }
}

impl HashedNumbers {
    /// Returns the map without numbers. Does not allocate.
    pub(crate) fn new(alloc: Global) -> HashedNumbers
        ensures { result.hashes ≡ [] }
    {
        HashedNumbers {
            lasts: IndexMap::new(alloc),
            links: Vec::new(alloc),
        }
    }

    /// Returns the count of numbers.
    pub(crate) fn len(&self) -> usize
        ensures { result ≡ length self.now.hashes }
    {
        self.links.len()
    }

    /// Returns the last number that has this hash, or `None`. Does not allocate.
    pub(crate) fn last(&self, hash: u32) -> Option<u32>
        ensures { result ≡ last_passing (◌==◌ hash) self.now.hashes (length self.now.hashes) }
    {
        self.lasts.get(&hash).copied()
    }

    /// Returns the last number before `number` that has the same hash, or `None`. Does not
    /// allocate.
    pub(crate) fn earlier(&self, number: u32) -> Option<u32>
        requires { number < length self.now.hashes }
        ensures { (hash : ℕ) → slice_get self.now.hashes number ≡ Some hash →
            result ≡ last_passing (◌==◌ hash) self.now.hashes number }
    {
        self.links[number as usize].earlier.get()
    }

    /// Reserves memory for one more number.
    pub(crate) fn reserve(&mut self) -> Result<(), NoMemory>
        ensures hashes { self.new.hashes ≡ self.old.hashes }
        ensures ok { OnOk result (self.new.room ≡ true) }
    {
        self.lasts.reserve(1)?;
        self.links.reserve(1)?;
        Ok(())
    }

    /// Adds the next number, with its hash. Memory must be reserved, and the number must have 32
    /// bits. Does not allocate.
    pub(crate) fn push(&mut self, hash: u32)
        requires room { self.old.room ≡ true }
        requires few { length self.old.hashes < 4294967296 }
        ensures { self.new.hashes ≡ self.old.hashes ++ hash ∷ [] }
    {
        let number = self.links.len() as u32;
        let Ok(before) = self.lasts.insert(hash, number) else {
            unreachable!()
        };
        let earlier = maybe_index(before);
        self.links.push_reserved(Link { hash, earlier });
    }
}
