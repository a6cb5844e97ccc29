//! The changes of one event in the tables, and the entries that it needs.
ghost use Rattle.std.specs.Prelude.{◌≡◌, ◌+◌, ◌<◌, ◌^◌, ℕ, Some, IfOk, OnErr, OnOk};
ghost use Rattle.number_map.specs.Positions.{HasNumberAt};
ghost use Rattle.wellformed.specs.Owners.{owner_in, op_owner};
ghost use Rattle.wellformed.specs.Threads.{thread_in, thread_after, HasThread};
ghost use Rattle.wellformed.specs.Tables.{HasOpThread, HasOpLock, HasOpLockAt};
ghost use Rattle.trace_model.specs.Theory.Holders.{owner_after, owner_depth, owner_after_release};
ghost use Rattle.trace_model.specs.declared.limits.TheConstants.{MAX_DEPTH};

use crate::owners::{Owners, owner_of};
use crate::threads::{ThreadEntry, Threads, UNKNOWN, thread_entry};
use trace_model::{Event, NoMemory, Op, Owner};

/// The positions of an event's entries in the tables: that of its thread, and that of the lock that
/// its operation names.
#[derive(Clone, Copy)]
pub struct Positions {
    pub thread: usize,
    pub lock: Option<usize>,
}

/// Returns the owner of the lock that the operation names, or `None` if it names none.
#[inline(always)]
pub fn owner_of_op(owners: &Owners, op: Op) -> Option<Owner>
    ensures { result ≡ op_owner owners.now op }
{
    match op {
        Op::Acquire(lock) | Op::Release(lock) => owner_of(owners, lock),
        _ => None,
    }
}

/// Returns the position of the lock that the operation names, or `None` if it names none, or one
/// without an entry.
#[inline(always)]
pub fn lock_position(owners: &Owners, op: Op) -> Option<usize>
    ensures { HasOpLockAt owners.now op result }
{
    match op {
        Op::Acquire(lock) | Op::Release(lock) => owners.position(lock),
        _ => None,
    }
}

/// Returns the owner of the lock at the position, or `None` without a position.
#[inline(always)]
pub fn owner_at(owners: &Owners, position: Option<usize>) -> Option<Owner>
    ensures { (op : Op) → HasOpLockAt owners.now op position → result ≡ op_owner owners.now op }
{
    match position {
        Some(position) => owners.get_at(position).flatten(),
        None => None,
    }
}

/// Returns the depth of the owner, 0 for a free lock.
pub fn depth_of(owner: Option<Owner>) -> u8
    ensures { result ≡ owner_depth owner }
{
    match owner {
        Some(owner) => owner.depth,
        None => 0,
    }
}

/// Returns the owner after one release.
fn released_once(owner: Option<Owner>) -> Option<Owner>
    ensures { result ≡ owner_after_release owner }
{
    match owner {
        Some(owner) if owner.depth > 1 => Some(Owner {
            depth: owner.depth - 1,
            ..owner
        }),
        _ => None,
    }
}

/// Records the event in the table of locks. `position` is that of its lock, and `was` the owner of
/// the lock before it.
#[inline(always)]
pub fn record_lock(owners: &mut Owners, event: &Event, position: Option<usize>, was: Option<Owner>)
    requires entry { HasOpLock owners.old event.now.op }
    requires position { HasOpLockAt owners.old event.now.op position }
    requires was { was ≡ op_owner owners.old event.now.op }
    requires room { (lock : ℕ) → event.now.op ≡ Op.Acquire lock → owner_depth was < MAX_DEPTH }
    ensures { (lock : ℕ) → owner_in owners.new lock ≡
        owner_after lock (owner_in owners.old lock) event.now }
{
    let Some(position) = position else {
        return;
    };
    match event.op {
        Op::Acquire(_) => {
            let owner = Owner {
                thread: event.thread,
                depth: depth_of(was) + 1,
            };
            owners.set_at(position, Some(owner));
        }
        Op::Release(_) => owners.set_at(position, released_once(was)),
        _ => {}
    }
}

/// Reserves the entry that the event needs in the table of locks, and returns its position, or
/// `None` if the event needs none. The owners do not change.
///
/// # Errors
///
/// `NoMemory` if an allocation fails, which happens only if the lock has no entry.
#[inline(always)]
pub fn reserve_lock(owners: &mut Owners, event: &Event) -> Result<Option<usize>, NoMemory>
    ensures shown { (lock : ℕ) → owner_in owners.new lock ≡ owner_in owners.old lock }
    ensures ok { OnOk result (HasOpLock owners.new event.now.op) }
    ensures position { IfOk result (HasOpLockAt owners.new event.now.op) }
    ensures kept { (op : Op) → HasOpLock owners.old op → HasOpLock owners.new op }
    ensures wanting { OnErr result (¬ HasOpLock owners.old event.now.op) }
{
    match event.op {
        Op::Acquire(lock) | Op::Release(lock) => Ok(Some(owners.reserve_position(lock, None)?)),
        _ => Ok(None),
    }
}

/// Records the event in the table of threads. `position` is that of its thread, `own` the state of
/// the thread before it, and `depth` the depth of its lock before it: the number of held locks
/// changes only at an outermost acquire or release.
#[inline(always)]
pub fn record_thread(
    threads: &mut Threads,
    event: &Event,
    position: usize,
    own: ThreadEntry,
    depth: u8,
)
    requires other { HasOpThread threads.old event.now.op }
    requires position { HasNumberAt threads.old event.now.thread (Some position) }
    requires own { own ≡ thread_in threads.old event.now.thread }
    requires few { own.held + 1 < 2 ^ 32 }
    ensures { (t : ℕ) → thread_in threads.new t ≡
        thread_after depth event.now t (thread_in threads.old t) }
{
    match event.op {
        Op::Fork(child) => {
            let was = thread_entry(threads, child);
            threads.set(
                child,
                ThreadEntry {
                    forked: true,
                    ..was
                },
            );
        }
        Op::Join(child) => {
            let was = thread_entry(threads, child);
            threads.set(
                child,
                ThreadEntry {
                    joined: true,
                    ..was
                },
            );
        }
        Op::Acquire(_) if depth == 0 => {
            let held = own.held + 1;
            threads.set_at(position, ThreadEntry { held, ..own });
        }
        Op::Release(_) if depth <= 1 => {
            let held = own.held.saturating_sub(1);
            threads.set_at(position, ThreadEntry { held, ..own });
        }
        Op::Acquire(_) | Op::Release(_) | Op::Read(_) | Op::Write(_) => {}
    }
}

/// Reserves the entries that the event needs in the table of threads, and returns the position of
/// its thread. The states do not change.
///
/// # Errors
///
/// `NoMemory` if an allocation fails, which happens only if some thread has no entry.
#[inline(always)]
pub fn reserve_threads(threads: &mut Threads, event: &Event) -> Result<usize, NoMemory>
    ensures shown { (t : ℕ) → thread_in threads.new t ≡ thread_in threads.old t }
    ensures own { OnOk result (HasThread threads.new event.now.thread) }
    ensures position { IfOk result (λ i. HasNumberAt threads.new event.now.thread (Some i)) }
    ensures other { OnOk result (HasOpThread threads.new event.now.op) }
    ensures kept { (t : ℕ) → HasThread threads.old t → HasThread threads.new t }
    ensures kept_other { (op : Op) → HasOpThread threads.old op → HasOpThread threads.new op }
    ensures wanting { OnErr result (HasThread threads.old event.now.thread →
        HasOpThread threads.old event.now.op → ⊥) }
{
    match event.op {
        Op::Fork(child) | Op::Join(child) => threads.reserve(child, UNKNOWN)?,
        _ => {}
    }
    Ok(threads.reserve_position(event.thread, UNKNOWN)?)
}
