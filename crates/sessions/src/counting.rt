//! Counting failures.
ghost use Rattle.std.specs.Prelude.{◌<◌};

use std::sync::Wait;

/// Returns the count after one more failure. Waits forever after 2^64 - 1 failures, which no run
/// reaches.
pub fn count_failure<R: Wait>(rt: &R, failures: u64) -> u64
    ensures { failures < result }
{
    if let Some(more) = failures.checked_add(1) {
        return more;
    }
    for _ in rt.forever() {}
    unreachable!()
}
