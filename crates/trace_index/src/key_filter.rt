//! A filter for keys that are not in a hash map.

ghost use Rattle.std.specs.Prelude.{◌≡◌, true};
ghost use Rattle.trace_index.specs.declared.row.Key.{Key as KeyValue};
ghost use Rattle.trace_index.specs.KeyFilter.{may_have as has_bit};

use crate::key_cache::cache_key;
use crate::row::Key;

/// How many words of 64 bits the filter has: 512 bytes.
const WORDS: usize = 64;

/// A bit for each residue of the cache numbers of keys, set when a key with the residue is noted. A
/// key whose bit is not set was not noted: so much is known without a hash.
#[derive(Clone, Copy)]
pub(crate) struct KeyFilter {
    words: [u64; WORDS],
}

impl KeyFilter {
    /// Returns the filter of no key.
    pub(crate) fn new() -> KeyFilter {
        KeyFilter { words: [0; WORDS] }
    }

    /// Returns whether `key` may have been noted.
    #[inline(always)]
    pub(crate) fn may_have(&self, key: Key) -> bool
        ensures { result ≡ has_bit self.now key }
    {
        let number = cache_key(key);
        self.words[number as usize / 64 % WORDS] >> (number % 64) & 1 == 1
    }

    /// Notes `key`.
    #[inline(always)]
    pub(crate) fn note(&mut self, key: Key)
        ensures noted { has_bit self.new key ≡ true }
        ensures kept { (q : KeyValue) → has_bit self.old q ≡ true → has_bit self.new q ≡ true }
    {
        let number = cache_key(key);
        self.words[number as usize / 64 % WORDS] |= 1 << (number % 64);
    }
}
