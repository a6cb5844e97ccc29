//! The owner of each lock.
ghost use Rattle.std.specs.Prelude.{◌≡◌};
ghost use Rattle.wellformed.specs.Owners.{owner_in};

use number_map::NumberMap;
use trace_model::Owner;

/// The owner of each lock. A free lock has no entry, or one with `None`.
pub type Owners = NumberMap<Option<Owner>>;

/// Returns the owner of `lock`, or `None` if the lock is free.
#[inline(always)]
pub fn owner_of(owners: &Owners, lock: u32) -> Option<Owner>
    ensures { result ≡ owner_in owners.now lock }
{
    owners.get(lock).flatten()
}
