//! The numbers of keys in the position caches of an index.

ghost use Rattle.std.specs.Prelude.{◌≡◌};
ghost use Rattle.trace_index.specs.KeyFilter.{cache_number};

use crate::row::Key;

/// Returns the number of `key` in a cache. The four kinds of keys begin at different fifths of a
/// cache of any size.
#[inline(always)]
pub(crate) fn cache_key(key: Key) -> u32
    ensures { result ≡ cache_number key }
{
    match key {
        Key::OfThread(thread) => thread,
        Key::ForkOf(thread) => thread.wrapping_add(0x3333_3333),
        Key::AcquireOf(lock) => lock.wrapping_add(0x6666_6666),
        Key::WriteOf(variable) => variable.wrapping_add(0x9999_9999),
    }
}
