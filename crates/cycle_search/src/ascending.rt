//! Sublists of ascending numbers.

ghost use Rattle.std.specs.Prelude.{◌<◌, ◌↔◌, ℕ};
ghost use Rattle.std.specs.List.{Contains};
ghost use Rattle.std.specs.List.Sorted.{IsStrictlyIncreasing};

/// Returns the numbers greater than `bound`. `numbers` is ascending.
pub(crate) fn above(numbers: &[u32], bound: u32) -> &[u32]
    requires { IsStrictlyIncreasing numbers.now }
    ensures exact { (m : ℕ) → Contains result.now m ↔ ((bound < m) × Contains numbers.now m) }
    ensures ascends { IsStrictlyIncreasing result.now }
{
    &numbers[numbers.partition_point(|number| *number <= bound)..]
}
