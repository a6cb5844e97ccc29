//! Tests whether a dependency may join a cycle (guard sets; Bensalem and Havelund 2005).
//!
//! The members of a cycle are dependencies of distinct threads, and no two of them hold a common
//! lock. A common lock is a gate lock: it excludes the deadlock. [`compatible`] tests whether one
//! more dependency may join the members. Start reading there.
#![tactic(auto)]

ghost use Rattle.std.specs.Prelude.{◌<◌, ◌↔◌, length, IsTrue};
ghost use Rattle.std.specs.List.{All};
ghost use Rattle.dependencies.specs.Tables.{table_dependencies};
ghost use Rattle.guards.specs.Compatible.{AreApart, NumbersApart, IsCompatible};

use dependencies::{DepTable, Dependency};

/// Returns whether the dependency `number` may join the cycle members `members`: its thread differs
/// from the threads of all members, and its held set is disjoint from each of theirs. `members` and
/// `number` are numbers of dependencies in `table`; the members may be in any order. Does not
/// allocate.
///
/// The caller passes only numbers below `table.len()`.
pub fn compatible(table: &DepTable, members: &[u32], number: u32) -> bool
    requires members { All (λ m. m < length (table_dependencies table.now)) members.now }
    requires number { number < length (table_dependencies table.now) }
    ensures { IsTrue result ↔ IsCompatible (table_dependencies table.now) members.now number }
{
    for member in members {
        if !numbers_apart(table, *member, number) {
            return false;
        }
    }
    true
}

/// Returns whether the dependencies `first` and `second` are of distinct threads and have disjoint
/// held sets.
fn numbers_apart(table: &DepTable, first: u32, second: u32) -> bool
    requires first { first < length (table_dependencies table.now) }
    requires second { second < length (table_dependencies table.now) }
    ensures { IsTrue result ↔ NumbersApart (table_dependencies table.now) first second }
{
    are_apart(table.get(first), table.get(second))
}

/// Returns whether the two dependencies are of distinct threads and have disjoint held sets.
fn are_apart(first: &Dependency, second: &Dependency) -> bool
    ensures { IsTrue result ↔ AreApart first.now second.now }
{
    first.thread != second.thread && first.held.is_disjoint(&second.held)
}
