//! The strongly connected components of the graph of locks, by Tarjan's algorithm (Tarjan 1972).
//!
//! The graph has an edge from each held lock to each lock that is acquired while it is held. Locks
//! are numbered by their positions in the graph. No contract says what the component numbers are:
//! the caller tests the property that it needs.

ghost use Rattle.std.specs.Prelude.{◌≡◌, ◌<◌, ℕ, length, Some, slice_get, IfOk, IsTrue, OnOk};
ghost use Rattle.std.specs.List.Sorted.{IsStrictlyIncreasing};
ghost use Rattle.lock_graph.specs.Graph.{holders};
ghost use Rattle.cycle_search.specs.Walk.{left_in, VisitsLock, KeepsPath, StaysOrEnters};

use lock_graph::LockGraph;
use std::alloc::Global;
use trace_model::NoMemory;

/// Returns a component number for each lock at one of the `positions`, which are those of the locks
/// that the dependencies acquire. The numbers of components are topological: no edge leads to a
/// lower number. They are below `u32::MAX`.
///
/// # Errors
/// `NoMemory` if an allocation fails.
pub(crate) fn lock_components(
    alloc: Global,
    positions: &[u32],
    graph: &LockGraph,
) -> Result<Vec<u32>, NoMemory>
    requires { (lock : ℕ) → IsStrictlyIncreasing (holders graph.now lock) }
{
    let locks = graph.lock_count();
    let mut walk = Walk {
        indices: vec![in alloc; 0u32; locks]?,
        low_links: vec![in alloc; 0u32; locks]?,
        components: vec![in alloc; 0u32; locks]?,
        path: Vec::new(alloc),
        stack: Vec::new(alloc),
        visited: 0,
        component: u32::MAX - 1,
    };
    for position in positions {
        walk.run(positions, graph, *position)?;
    }
    Ok(walk.components)
}

/// A lock on the path of the search, with the number of its edges that were followed.
#[derive(Clone, Copy)]
struct Frame {
    lock: u32,
    followed: usize,
}

/// The state of the depth-first search. The lists have a number for each lock, by its position.
#[derive(Drop)]
struct Walk {
    /// The order of the visits, from 1; 0 for a lock that was not visited.
    indices: Vec<u32>,
    /// The least index that the lock is known to reach.
    low_links: Vec<u32>,
    /// 0 for a lock that has no component yet.
    components: Vec<u32>,
    path: Vec<Frame>,
    /// The locks that were visited and have no component yet, in order.
    stack: Vec<u32>,
    /// The number of visited locks.
    visited: u32,
    /// The number of the next component that is complete.
    component: u32,
}

impl Walk {
    /// Searches from `lock`, unless it was visited or the graph does not have it.
    fn run(&mut self, positions: &[u32], graph: &LockGraph, lock: u32) -> Result<(), NoMemory>
        requires { (lock : ℕ) → IsStrictlyIncreasing (holders graph.now lock) }
    {
        if let Some(0) = self.index(lock) {
            self.visit(lock)?;
            while self.step(positions, graph)? {}
        }
        Ok(())
    }

    /// Returns the index of a lock, or `None` if the graph does not have it.
    fn index(&self, lock: u32) -> Option<u32>
        ensures { result ≡ slice_get self.now.indices.items lock }
    {
        self.indices.get(lock as usize).copied()
    }

    /// Visits `lock` and appends it to the path.
    fn visit(&mut self, lock: u32) -> Result<(), NoMemory>
        requires { slice_get self.old.indices.items lock ≡ Some 0 }
        ensures { OnOk result (VisitsLock self.old lock self.new) }
    {
        self.visited = self.visited.saturating_add(1);
        self.indices[lock as usize] = self.visited;
        if let Some(low_link) = self.low_links.get_mut(lock as usize) {
            *low_link = self.visited;
        }
        self.stack.push(lock)?;
        self.path.push(Frame { lock, followed: 0 })?;
        Ok(())
    }

    /// Follows one edge of the last lock of the path, or leaves that lock. Returns `false` if the
    /// path is empty. Each step reduces the work that remains, so the search ends.
    fn step(&mut self, positions: &[u32], graph: &LockGraph) -> Result<bool, NoMemory>
        requires { (lock : ℕ) → IsStrictlyIncreasing (holders graph.now lock) }
        ensures { IfOk result (λ more. IsTrue more
            → left_in (length positions.now) graph.now self.new <
            left_in (length positions.now) graph.now self.old) }
    {
        let Some(frame) = self.path.last_mut() else {
            return Ok(false);
        };
        let lock = frame.lock;
        match graph.at(lock, positions.len()).get(frame.followed) {
            Some(number) => {
                frame.followed += 1;
                let next = positions.get(*number as usize).copied();
                self.follow(lock, next.unwrap_or(u32::MAX))?;
            },
            None => {
                self.path.pop();
                self.leave(lock);
            },
        }
        Ok(true)
    }

    /// Follows the edge from `lock` to `next`, unless the graph does not have `next`.
    fn follow(&mut self, lock: u32, next: u32) -> Result<(), NoMemory>
        ensures { OnOk result (StaysOrEnters self.old next self.new) }
    {
        match self.index(next) {
            Some(0) => self.visit(next)?,
            Some(index) if self.is_open(next) => self.reaches(lock, index),
            _ => {},
        }
        Ok(())
    }

    /// Returns whether the lock has no component yet.
    fn is_open(&self, lock: u32) -> bool {
        match self.components.get(lock as usize) {
            Some(component) => *component == 0,
            None => false,
        }
    }

    /// Notes that `lock` reaches the lock on the stack with this index.
    fn reaches(&mut self, lock: u32, index: u32)
        ensures { KeepsPath self.old self.new }
    {
        if let Some(low_link) = self.low_links.get_mut(lock as usize) {
            *low_link = (*low_link).min(index);
        }
    }

    /// Leaves a lock all of whose edges were followed.
    fn leave(&mut self, lock: u32)
        ensures { KeepsPath self.old self.new }
    {
        let Some(low_link) = self.low_links.get(lock as usize).copied() else {
            return;
        };
        match self.index(lock) {
            Some(index) if index == low_link => self.close(lock),
            _ => {},
        }
        if let Some(before) = self.path.last().copied() {
            self.reaches(before.lock, low_link);
        }
    }

    /// Closes the component whose first visited lock is `first`: it consists of the locks on the
    /// stack from `first` on.
    fn close(&mut self, first: u32)
        ensures { KeepsPath self.old self.new }
    {
        let number = self.component;
        while let Some(lock) = self.stack.pop() {
            if let Some(component) = self.components.get_mut(lock as usize) {
                *component = number;
            }
            if lock == first {
                break;
            }
        }
        self.component = number.saturating_sub(1);
    }
}
