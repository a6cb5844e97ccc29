//! The tables of the admission check.

ghost use Rattle.std.specs.Prelude.{◌≡◌, ◌≢◌, ◌+◌, ◌<◌, ◌≤◌, ◌^◌, cond, length, None, [], ◌∷◌, ◌++◌, IfOk, OnErr, OnOk};
ghost use Rattle.std.specs.Result.{result_err};
ghost use Rattle.trace_model.specs.declared.limits.TheConstants.{MAX_EVENTS};
ghost use Rattle.trace_model.specs.declared.traces.event.Event.{Event as EventValue};
ghost use Rattle.trace_model.specs.Theory.Trace.{Trace};
ghost use Rattle.trace_model.specs.Theory.Held.{depth, held_set};
ghost use Rattle.trace_model.specs.Theory.Holders.{depth_by, is_other_owner};
ghost use Rattle.trace_model.specs.Theory.Lawful.{is_fork, held_by_other, op_refusal_of, refusal_of};
ghost use Rattle.wellformed.specs.Owners.{owner_in, op_owner};
ghost use Rattle.wellformed.specs.Threads.{thread_in};
ghost use Rattle.wellformed.specs.FirstUnlawful.{Admits};
ghost use Rattle.wellformed.specs.Tables.{ArePositions, FollowEvents, HasAdmissionRoom, IsLawfulForGate};

use crate::entries::{
    Positions, depth_of, lock_position, owner_at, owner_of_op, record_lock, record_thread,
    reserve_lock, reserve_threads,
};
use crate::owners::Owners;
use crate::threads::{ThreadEntry, Threads, thread_at, thread_entry};
use crate::whole_lists::FirstUnlawful;
use number_map::NumberMap;
use std::alloc::Global;
use std::hash::RandomState;
use trace_model::{
    Event, MAX_DEPTH, MAX_EVENTS, MAX_FORKS, MAX_HELD, NoMemory, Op, Owner, Refusal,
};

/// The depth at which a thread holds a lock, and whether another thread holds the lock.
#[derive(Clone, Copy)]
struct Holder {
    depth: u8,
    other: bool,
}

/// The facts of the recorded events that the admission check needs: the number of events and of
/// forks, the state of each thread, and the owner of each lock.
///
/// The events themselves are not stored here.
#[derive(Drop)]
pub struct AdmissionTables {
    count: usize,
    forks: usize,
    threads: Threads,
    owners: Owners,
}

impl AdmissionTables {
    /// Returns the tables of the empty trace. Does not allocate.
    pub fn new(alloc: Global, state: RandomState) -> AdmissionTables
        ensures { FollowEvents result [] }
    {
        AdmissionTables {
            count: 0,
            forks: 0,
            threads: NumberMap::new(alloc, state),
            owners: NumberMap::new(alloc, state),
        }
    }

    /// Tests whether `event` may follow the recorded events. `limit` is the greatest number of
    /// events. Does not allocate.
    ///
    /// # Errors
    ///
    /// The first refusal that applies.
    #[inline(always)]
    pub fn check(&self, limit: usize, event: &Event) -> Result<(), Refusal>
        ensures { (s : Trace) → FollowEvents self.now s →
            result_err result ≡ refusal_of limit s event.now }
    {
        let own = thread_entry(&self.threads, event.thread);
        let was = owner_of_op(&self.owners, event.op);
        self.check_entries(limit, event, own, was)
    }

    /// Tests whether `event` may follow, as `check` does. `own` is the state of its thread, and
    /// `was` the owner of its lock.
    #[inline(always)]
    fn check_entries(
        &self,
        limit: usize,
        event: &Event,
        own: ThreadEntry,
        was: Option<Owner>,
    ) -> Result<(), Refusal>
        requires own { own ≡ thread_in self.now.threads event.now.thread }
        requires was { was ≡ op_owner self.now.owners event.now.op }
        ensures { (s : Trace) → FollowEvents self.now s →
            result_err result ≡ refusal_of limit s event.now }
    {
        if self.count >= limit {
            return Err(Refusal::Full);
        }
        if event.thread != 0 && !own.forked {
            return Err(Refusal::Unforked);
        }
        if own.joined {
            return Err(Refusal::Ended);
        }
        match event.op {
            Op::Fork(child) => self.check_fork(event.thread, child),
            Op::Join(child) => self.check_join(event.thread, child),
            Op::Acquire(lock) => self.check_acquire(event.thread, lock, was, own.held),
            Op::Release(lock) => self.check_release(event.thread, lock, was),
            Op::Read(_) | Op::Write(_) => Ok(()),
        }
    }

    /// Tests a fork of `child` by `thread`.
    fn check_fork(&self, thread: u32, child: u32) -> Result<(), Refusal>
        ensures { (s : Trace) → FollowEvents self.now s →
            result_err result ≡ op_refusal_of s thread (Op.Fork child) }
    {
        if child == 0 || thread_entry(&self.threads, child).forked {
            return Err(Refusal::AlreadyForked);
        }
        if self.forks >= MAX_FORKS {
            return Err(Refusal::TooManyThreads);
        }
        Ok(())
    }

    /// Tests a join of `child` by `thread`.
    fn check_join(&self, thread: u32, child: u32) -> Result<(), Refusal>
        ensures { (s : Trace) → FollowEvents self.now s →
            result_err result ≡ op_refusal_of s thread (Op.Join child) }
    {
        if child == thread {
            return Err(Refusal::JoinsItself);
        }
        let joined = thread_entry(&self.threads, child);
        if child == 0 || !joined.forked {
            return Err(Refusal::JoinUnknown);
        }
        if joined.joined {
            return Err(Refusal::JoinedTwice);
        }
        Ok(())
    }

    /// Tests an acquire of `lock`, which has this owner, by `thread`, which holds `count` locks.
    #[inline(always)]
    fn check_acquire(
        &self,
        thread: u32,
        lock: u32,
        owner: Option<Owner>,
        count: u32,
    ) -> Result<(), Refusal>
        requires { owner ≡ owner_in self.now.owners lock }
        ensures { (s : Trace) → FollowEvents self.now s →
            count ≡ length (held_set s (length s) thread) →
            result_err result ≡ op_refusal_of s thread (Op.Acquire lock) }
    {
        let holder = self.holder(thread, lock, owner);
        if holder.depth as usize >= MAX_DEPTH {
            return Err(Refusal::TooNested);
        }
        if holder.other {
            return Err(Refusal::HeldByOther);
        }
        if holder.depth == 0 && count as usize >= MAX_HELD {
            return Err(Refusal::TooDeep);
        }
        Ok(())
    }

    /// Tests a release of `lock`, which has this owner, by `thread`.
    #[inline(always)]
    fn check_release(&self, thread: u32, lock: u32, owner: Option<Owner>) -> Result<(), Refusal>
        requires { owner ≡ owner_in self.now.owners lock }
        ensures { (s : Trace) → FollowEvents self.now s →
            result_err result ≡ op_refusal_of s thread (Op.Release lock) }
    {
        if self.holder(thread, lock, owner).depth == 0 {
            return Err(Refusal::NotHeld);
        }
        Ok(())
    }

    /// Returns how `thread` and others hold `lock`, which has this owner.
    #[inline(always)]
    fn holder(&self, thread: u32, lock: u32, owner: Option<Owner>) -> Holder
        requires { owner ≡ owner_in self.now.owners lock }
        ensures depth { (s : Trace) → FollowEvents self.now s →
            result.depth ≡ depth s (length s) thread lock }
        ensures other { (s : Trace) → FollowEvents self.now s →
            result.other ≡ held_by_other s thread lock }
    {
        holder_of(owner, thread)
    }

    /// Reserves memory for `event`. The recorded events do not change. Reservations for other
    /// events stay.
    ///
    /// # Errors
    ///
    /// `NoMemory` if an allocation fails, which does not happen if this event is reserved already.
    #[inline(always)]
    pub fn reserve(&mut self, event: &Event) -> Result<(), NoMemory>
        ensures follow { (s : Trace) → FollowEvents self.old s → FollowEvents self.new s }
        ensures ok { OnOk result (HasAdmissionRoom self.new event.now) }
        ensures kept { (e : EventValue) → HasAdmissionRoom self.old e →
            HasAdmissionRoom self.new e }
        ensures wanting { OnErr result (¬ HasAdmissionRoom self.old event.now) }
    {
        self.reserve_positions(event)?;
        Ok(())
    }

    /// Reserves memory for `event` as `reserve` does, and returns the positions of its entries.
    #[inline(always)]
    fn reserve_positions(&mut self, event: &Event) -> Result<Positions, NoMemory>
        ensures follow { (s : Trace) → FollowEvents self.old s → FollowEvents self.new s }
        ensures ok { OnOk result (HasAdmissionRoom self.new event.now) }
        ensures positions { IfOk result (ArePositions self.new event.now) }
        ensures kept { (e : EventValue) → HasAdmissionRoom self.old e →
            HasAdmissionRoom self.new e }
        ensures wanting { OnErr result (¬ HasAdmissionRoom self.old event.now) }
    {
        let thread = reserve_threads(&mut self.threads, event)?;
        let lock = reserve_lock(&mut self.owners, event)?;
        Ok(Positions { thread, lock })
    }

    /// Records `event`. The event must be lawful, and memory must be reserved for it. Does not
    /// allocate.
    #[inline(always)]
    pub fn record(&mut self, event: &Event)
        requires room { HasAdmissionRoom self.old event.now }
        requires lawful { IsLawfulForGate self.old event.now }
        ensures { (s : Trace) → FollowEvents self.old s → refusal_of MAX_EVENTS s event.now ≡ None →
            FollowEvents self.new (s ++ event.now ∷ []) }
    {
        let Some(thread) = self.threads.position(event.thread) else {
            unreachable!()
        };
        let lock = lock_position(&self.owners, event.op);
        let (own, was) = (
            thread_at(&self.threads, thread),
            owner_at(&self.owners, lock),
        );
        self.record_at(event, Positions { thread, lock }, own, was);
    }

    /// Records `event` as `record` does. Its entries are at `positions`: `own` is the state of its
    /// thread, and `was` the owner of its lock.
    #[inline(always)]
    fn record_at(
        &mut self,
        event: &Event,
        positions: Positions,
        own: ThreadEntry,
        was: Option<Owner>,
    )
        requires room { HasAdmissionRoom self.old event.now }
        requires positions { ArePositions self.old event.now positions }
        requires own { own ≡ thread_in self.old.threads event.now.thread }
        requires was { was ≡ op_owner self.old.owners event.now.op }
        requires lawful { IsLawfulForGate self.old event.now }
        ensures { (s : Trace) → FollowEvents self.old s → refusal_of MAX_EVENTS s event.now ≡ None →
            FollowEvents self.new (s ++ event.now ∷ []) }
    {
        let depth = depth_of(was);
        record_thread(&mut self.threads, event, positions.thread, own, depth);
        record_lock(&mut self.owners, event, positions.lock, was);
        self.forks = forks_after(self.forks, event);
        self.count += 1;
    }

    /// Admits `event`: tests it as `check` does, and records it if it is lawful. The inner result
    /// is that of the test. Looks up the event's thread and lock once. The tables must be those of
    /// some events, and `limit` at most `MAX_EVENTS`.
    ///
    /// # Errors
    ///
    /// `NoMemory` if an allocation fails. The recorded events do not change then, nor if the event
    /// is refused.
    #[inline(always)]
    pub fn admit(&mut self, limit: usize, event: &Event) -> Result<Result<(), Refusal>, NoMemory>
        requires following { (s : Trace) × FollowEvents self.old s }
        requires limit { limit ≤ MAX_EVENTS }
        ensures answer { IfOk result (λ answer. (s : Trace) → FollowEvents self.old s →
            result_err answer ≡ refusal_of limit s event.now) }
        ensures admitted { OnOk result ((s : Trace) → FollowEvents self.old s →
            refusal_of limit s event.now ≡ None → FollowEvents self.new (s ++ event.now ∷ [])) }
        ensures refused { OnOk result ((s : Trace) → FollowEvents self.old s →
            refusal_of limit s event.now ≢ None → FollowEvents self.new s) }
        ensures err { OnErr result ((s : Trace) → FollowEvents self.old s →
            FollowEvents self.new s) }
    {
        let positions = self.reserve_positions(event)?;
        let own = thread_at(&self.threads, positions.thread);
        let was = owner_at(&self.owners, positions.lock);
        if let Err(refusal) = self.check_entries(limit, event, own, was) {
            return Ok(Err(refusal));
        }
        self.record_at(event, positions, own, was);
        Ok(Ok(()))
    }

    /// Admits `events` one after the other, up to the first that is not lawful. Returns that event,
    /// or `None` if all are lawful. At most `MAX_EVENTS` events are lawful.
    ///
    /// The returned index counts from the first event that the tables follow. After a refusal the
    /// tables can only be dropped. The tables must be those of some events.
    ///
    /// # Errors
    ///
    /// `NoMemory` if an allocation fails. The tables can then only be dropped.
    pub fn admit_all(&mut self, events: &[Event]) -> Result<Option<FirstUnlawful>, NoMemory>
        requires following { (s : Trace) × FollowEvents self.old s }
        ensures { IfOk result (Admits self.old events.now self.new) }
    {
        for event in events {
            if let Err(refusal) = self.admit(MAX_EVENTS, event)? {
                return Ok(Some(FirstUnlawful {
                    index: self.count,
                    refusal,
                }));
            }
        }
        Ok(None)
    }
}

/// Returns how `thread` and others hold a lock with this owner.
fn holder_of(owner: Option<Owner>, thread: u32) -> Holder
    ensures depth { result.depth ≡ depth_by owner thread }
    ensures other { result.other ≡ is_other_owner owner thread }
{
    match owner {
        Some(owner) if owner.thread == thread => Holder {
            depth: owner.depth,
            other: false,
        },
        Some(_) => Holder {
            depth: 0,
            other: true,
        },
        None => Holder {
            depth: 0,
            other: false,
        },
    }
}

/// Returns the number of forks after the event.
fn forks_after(forks: usize, event: &Event) -> usize
    requires { forks + 1 < 2 ^ 64 }
    ensures { result ≡ forks + cond (is_fork event.now.op) 1 0 }
{
    match event.op {
        Op::Fork(_) => forks + 1,
        _ => forks,
    }
}
