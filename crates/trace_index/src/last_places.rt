//! The last place of each key in the sealed segments.

ghost use Rattle.std.specs.Prelude.{◌≡◌, ◌≤◌, ◌*◌, ℕ, None, length, OnOk};
ghost use Rattle.std.specs.HashMap.{get};
ghost use Rattle.trace_model.specs.Theory.Trace.{Trace};
ghost use Rattle.trace_index.specs.declared.row.Key.{Key as KeyValue};
ghost use Rattle.trace_index.specs.Links.{same_key, AreLastPlaces};
ghost use Rattle.trace_index.specs.SegmentTables.{AreSealed};

use crate::key_cache::cache_key;
use crate::places::{Places, last_near, record_all};
use crate::row::Key;
use crate::segment_tables::SegmentTable;
use number_map::GrowingCache;
use std::alloc::Global;
use std::collections::hash_map::RandomState;
use std::sync::Arc;
use trace_model::{NoMemory, Place};

/// The last place of each key in the first `noted` sealed segments. `follow` notes the other
/// segments when memory for the next event is reserved.
#[derive(Drop)]
pub(crate) struct LastPlaces {
    pub(crate) places: Places,
    pub(crate) cache: GrowingCache,
    pub(crate) noted: usize,
}

impl LastPlaces {
    /// Returns the table with no noted segment.
    pub(crate) fn new(alloc: Global, state: RandomState) -> LastPlaces
        ensures places { (q : KeyValue) → get same_key result.places q ≡ None }
        ensures noted { result.noted ≡ 0 }
    {
        LastPlaces {
            places: Places::new(alloc, state),
            cache: GrowingCache::new(alloc),
            noted: 0,
        }
    }

    /// Returns the last place of `key` in the noted segments.
    #[inline(always)]
    pub(crate) fn of(&self, key: Key) -> Option<Place>
        ensures { result ≡ get same_key self.now.places key }
    {
        last_near(&self.places, self.cache.candidate(cache_key(key)), key)
    }

    /// Notes the sealed segments that are not noted yet.
    #[inline(always)]
    pub(crate) fn follow(&mut self, sealed: &[Arc<SegmentTable>]) -> Result<(), NoMemory>
        requires { self.old.noted ≤ length sealed.now }
        ensures last_places { (s : Trace) → AreSealed s sealed.now →
            AreLastPlaces s (4096 * self.old.noted) self.old.places →
            AreLastPlaces s (4096 * self.new.noted) self.new.places }
        ensures within { self.new.noted ≤ length sealed.now }
        ensures ok { OnOk result (self.new.noted ≡ length sealed.now) }
    {
        for index in self.noted..sealed.len() {
            record_all(&mut self.places, &mut self.cache, &sealed[index].last)?;
            self.noted = index + 1;
        }
        Ok(())
    }
}
