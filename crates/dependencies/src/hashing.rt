//! Keyed hashes of dependencies.

ghost use Rattle.std.specs.Prelude.{◌≡◌};
ghost use Rattle.dependencies.specs.Hashing.{dependency_hash};

use crate::Dependency;
use std::collections::hash_map::RandomState;
use std::hash::{BuildHasher, Hasher};

/// Returns the hash of `dependency` with the random keys of `state`. A stranger who does not know
/// the keys cannot choose dependencies with the same hash. Does not allocate.
pub(crate) fn hash_of(state: &RandomState, dependency: &Dependency) -> u32
    ensures { result ≡ dependency_hash state.now dependency.now }
{
    let mut hasher = state.build_hasher();
    hasher.write_u64(dependency.thread as u64 * 4_294_967_296 + dependency.lock as u64);
    for lock in dependency.held.locks() {
        hasher.write_u64(*lock as u64);
    }
    (hasher.finish() % 4_294_967_296) as u32
}
