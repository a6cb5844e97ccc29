//! Lists of numbers by lock.

ghost use Rattle.std.specs.Prelude.{◌≡◌, ◌≤◌, ℕ, List, ◌++◌, ◌∷◌, [], length, take, nat_eq, cond, OnOk, OnErr, false};
ghost use Rattle.std.specs.HashMap.{get};
ghost use Rattle.std.specs.List.Sorted.{IsStrictlyIncreasing};
ghost use Rattle.lock_graph.specs.Lists.{lock_numbers, listed_with, AreListedWith, HasRoomAt, HaveListRoom};

use indexmap::IndexMap;
use smallvec::SmallVec;
use std::alloc::Global;
use std::collections::hash_map::RandomState;
use trace_model::NoMemory;

/// The list of numbers of each lock. Most locks are held in few dependencies: a list of up to four
/// numbers needs no allocation of its own.
pub(crate) type Lists = IndexMap<u32, SmallVec<u32, 4>, RandomState>;

/// Adds a number at each of the locks, which must ascend. Hashes each lock once. If an allocation
/// fails, the number is taken back from the locks before.
pub(crate) fn add(
    lists: &mut Lists,
    alloc: Global,
    locks: &[u32],
    number: u32,
) -> Result<(), NoMemory>
    requires { IsStrictlyIncreasing locks.now }
    ensures ok { OnOk result (AreListedWith lists.new locks.now number (lock_numbers lists.old)) }
    ensures err { OnErr result ((other : ℕ) →
        lock_numbers lists.new other ≡ lock_numbers lists.old other) }
{
    for index in 0..locks.len() {
        if let Err(refused) = add_one(lists, alloc, locks[index], number) {
            take_back(lists, locks, index);
            return Err(refused);
        }
    }
    Ok(())
}

/// Takes back the last number of each of the first `count` locks, which must ascend.
#[inline(never)]
fn take_back(lists: &mut Lists, locks: &[u32], count: usize)
    requires ascends { IsStrictlyIncreasing locks.now }
    requires within { count ≤ length locks.now }
    ensures { (number : ℕ) (before : ℕ → List ℕ) →
        AreListedWith lists.old (take count locks.now) number before →
        (other : ℕ) → lock_numbers lists.new other ≡ before other }
{
    let mut rest = count;
    while rest > 0 {
        rest -= 1;
        take_one(lists, locks[rest]);
    }
}

/// Reserves memory for one more number at each of the locks.
pub(crate) fn reserve(lists: &mut Lists, alloc: Global, locks: &[u32]) -> Result<(), NoMemory>
    ensures shown { (other : ℕ) → lock_numbers lists.new other ≡ lock_numbers lists.old other }
    ensures ok { OnOk result (HaveListRoom lists.new locks.now) }
{
    for lock in locks {
        reserve_one(lists, alloc, *lock)?;
    }
    Ok(())
}

/// Adds a number at each of the locks, which must ascend and have memory reserved.
pub(crate) fn record(lists: &mut Lists, locks: &[u32], number: u32)
    requires room { HaveListRoom lists.old locks.now }
    requires ascends { IsStrictlyIncreasing locks.now }
    ensures { (other : ℕ) → lock_numbers lists.new other ≡ listed_with locks.now number other
        (lock_numbers lists.old other) }
{
    for lock in locks {
        record_one(lists, *lock, number);
    }
}

/// Reserves memory for one more number at a lock.
fn reserve_one(lists: &mut Lists, alloc: Global, lock: u32) -> Result<(), NoMemory>
    ensures shown { (other : ℕ) → lock_numbers lists.new other ≡ lock_numbers lists.old other }
    ensures ok { OnOk result (HasRoomAt lists.new lock) }
    ensures kept { (other : ℕ) → HasRoomAt lists.old other → HasRoomAt lists.new other }
{
    match lists.get_mut(&lock) {
        Some(list) => list.reserve(1)?,
        None => {
            lists.insert(lock, SmallVec::new(alloc))?;
        }
    }
    Ok(())
}

/// Adds a number at a lock, whose list must have spare capacity.
fn record_one(lists: &mut Lists, lock: u32, number: u32)
    requires { HasRoomAt lists.old lock }
    ensures shown { (other : ℕ) →
        lock_numbers lists.new other
        ≡ (cond (nat_eq lock other) (lock_numbers lists.old other ++ number ∷ [])
        (lock_numbers lists.old other)) }
    ensures others { (other : ℕ) → nat_eq lock other ≡ false →
        get nat_eq lists.new other ≡ get nat_eq lists.old other }
{
    if let Some(list) = lists.get_mut(&lock) {
        list.push_reserved(number);
    }
}

/// Adds a number at a lock.
fn add_one(lists: &mut Lists, alloc: Global, lock: u32, number: u32) -> Result<(), NoMemory>
    ensures ok { OnOk result ((other : ℕ) → lock_numbers lists.new other
        ≡ (cond (nat_eq lock other) (lock_numbers lists.old other ++ number ∷ [])
        (lock_numbers lists.old other))) }
    ensures err { OnErr result ((other : ℕ) →
        lock_numbers lists.new other ≡ lock_numbers lists.old other) }
{
    let list = lists.entry(lock)?.or_insert(SmallVec::new(alloc));
    list.push(number)?;
    Ok(())
}

/// Takes back the last number of a lock.
fn take_one(lists: &mut Lists, lock: u32)
    ensures last { (before : List ℕ) (number : ℕ) →
        lock_numbers lists.old lock ≡ before ++ number ∷ [] → lock_numbers lists.new lock ≡ before }
    ensures others { (other : ℕ) → nat_eq lock other ≡ false →
        lock_numbers lists.new other ≡ lock_numbers lists.old other }
{
    if let Some(list) = lists.get_mut(&lock) {
        list.pop();
    }
}
