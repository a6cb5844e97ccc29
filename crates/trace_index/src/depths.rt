//! The depth of each lock.
ghost use Rattle.std.specs.Prelude.{◌≡◌, ℕ, ◌+◌, ◌<◌, ◌≤◌, ◌^◌, length, IfOk, OnOk};
ghost use Rattle.trace_model.specs.declared.limits.TheConstants.{MAX_EVENTS};
ghost use Rattle.trace_model.specs.Theory.Lawful.{IsWellFormed};
ghost use Rattle.trace_index.specs.Depths.{lock_depth, op_depth, depth_noted, HasOpEntry, HasOpEntryAt, IsShallow, AreDeep, AreDepths};
ghost use Rattle.trace_index.specs.Links.{trace_of};

use crate::row::IndexRow;
use number_map::NumberMap;
use segments::Segments;
use std::alloc::Global;
use std::collections::hash_map::RandomState;
use trace_model::{NoMemory, Op};

/// The depth of the lock that an operation names, 0 if it names none, and the position of its entry
/// in the table.
#[derive(Clone, Copy)]
pub(crate) struct DepthAt {
    pub(crate) depth: u8,
    pub(crate) position: Option<usize>,
}

/// The depth of each lock after the first `noted` rows. In a well-formed trace at most one thread
/// holds a lock, so a lock has one depth. An index that `share` returned starts with no noted row;
/// `follow` notes the rows when memory for the next event is reserved.
#[derive(Drop)]
pub(crate) struct Depths {
    pub(crate) table: NumberMap<u8>,
    pub(crate) noted: usize,
}

impl Depths {
    /// Returns the table with no noted row.
    pub(crate) fn new(alloc: Global, state: RandomState) -> Depths
        ensures depths { (lock : ℕ) → lock_depth result.table lock ≡ 0 }
        ensures noted { result.noted ≡ 0 }
    {
        Depths {
            table: NumberMap::new(alloc, state),
            noted: 0,
        }
    }

    /// Reserves an entry for the lock that the operation names, and returns its depth and position.
    #[inline(always)]
    pub(crate) fn reserve(&mut self, op: Op) -> Result<DepthAt, NoMemory>
        ensures shown { (lock : ℕ) →
            lock_depth self.new.table lock ≡ lock_depth self.old.table lock }
        ensures noted { self.new.noted ≡ self.old.noted }
        ensures ok { OnOk result (HasOpEntry self.new.table op) }
        ensures depth { IfOk result (λ at. at.depth ≡ op_depth (lock_depth self.new.table) op) }
        ensures position { IfOk result (λ at. HasOpEntryAt self.new.table op at.position) }
    {
        match op {
            Op::Acquire(lock) | Op::Release(lock) => {
                let position = self.table.reserve_position(lock, 0)?;
                Ok(DepthAt {
                    depth: self.table.get_at(position).unwrap_or(0),
                    position: Some(position),
                })
            }
            _ => Ok(DepthAt {
                depth: 0,
                position: None,
            }),
        }
    }

    /// Notes the next row: its operation, the depth of its lock before it, and the position of the
    /// lock.
    #[inline(always)]
    pub(crate) fn record(&mut self, op: Op, depth: u8, position: Option<usize>)
        requires entry { HasOpEntry self.old.table op }
        requires position { HasOpEntryAt self.old.table op position }
        requires shallow { IsShallow op depth }
        requires few { self.old.noted + 1 < 2 ^ 64 }
        ensures depths { (lock : ℕ) → lock_depth self.new.table lock ≡
            depth_noted op depth lock (lock_depth self.old.table lock) }
        ensures noted { self.new.noted ≡ self.old.noted + 1 }
    {
        set_after(&mut self.table, op, depth, position);
        self.noted += 1;
    }

    /// Notes the rows that are not noted yet.
    #[inline(always)]
    pub(crate) fn follow(&mut self, rows: &Segments<IndexRow>) -> Result<(), NoMemory>
        requires well_formed { IsWellFormed (trace_of rows.now.0) }
        requires rows { AreDeep rows.now.0 }
        requires short { length rows.now.0 ≤ MAX_EVENTS }
        requires depths { AreDepths (trace_of rows.now.0) self.old.noted self.old.table }
        requires within { self.old.noted ≤ length rows.now.0 }
        ensures depths { AreDepths (trace_of rows.now.0) self.new.noted self.new.table }
        ensures within { self.new.noted ≤ length rows.now.0 }
        ensures ok { OnOk result (self.new.noted ≡ length rows.now.0) }
    {
        for index in self.noted..rows.len() {
            let Some(row) = rows.get(index) else {
                unreachable!()
            };
            let at = self.reserve(row.event.op)?;
            self.record(row.event.op, row.depth, at.position);
        }
        Ok(())
    }
}

/// Sets the depth after the operation of the lock that it names, which is at the position. `depth`
/// is the depth of the lock before it.
#[inline(always)]
fn set_after(table: &mut NumberMap<u8>, op: Op, depth: u8, position: Option<usize>)
    requires entry { HasOpEntry table.old op }
    requires position { HasOpEntryAt table.old op position }
    requires shallow { IsShallow op depth }
    ensures { (lock : ℕ) → lock_depth table.new lock ≡
        depth_noted op depth lock (lock_depth table.old lock) }
{
    let Some(position) = position else {
        return;
    };
    match op {
        Op::Acquire(_) => table.set_at(position, depth + 1),
        Op::Release(_) => table.set_at(position, depth.saturating_sub(1)),
        _ => {}
    }
}
