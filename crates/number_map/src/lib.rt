//! A hash map from `u32` to values that rarely hashes.
//!
//! [`NumberMap`] is the map: `get` is exact, `reserve` makes an entry without changing what the
//! map shows, and `set` writes an entry without allocating. Before it hashes, a look-up tries the
//! position at which the number was last found, and then the position that the number has if
//! numbers were added in order, from 0 or from 1. A caller that uses one entry several times looks
//! its position up once, and then reads and writes by position. Start reading at `NumberMap::get`.
//!
//! [`PositionCache`] and [`GrowingCache`] are caches of positions for tables with other keys: one
//! of a fixed size in place, and one on the heap.
#![tactic(auto)]

mod growing_cache;
mod map;
mod position_cache;

pub use growing_cache::GrowingCache;
pub use map::NumberMap;
pub use position_cache::PositionCache;
