//! The sink into which a text is written.

ghost use Rattle.std.specs.Prelude.{◌≡◌, ◌+◌, ◌<◌, ◌≤◌, ◌^◌, ◌++◌, [], length, IfOk, OnOk};
ghost use Rattle.reports.specs.Text.{row_text, run_text};

use crate::numeral_cache::{NumeralCache, append_number, append_run};
use crate::row::Row;
use crate::sink::Sink;
use crate::write::write_row;
use itoa::Buffer;
use std::alloc::Global;
use std::marker::Model;
use std::mem;
use trace_model::NoMemory;

/// The least number of bytes of a text for each number in the cache, so that a cache takes less
/// memory than its text.
const BYTES_FOR_NUMBER: u64 = 16;

/// A buffer in which a text is written, with a cache of small numbers in decimal. Contracts see it
/// as the text.
pub struct TextBuffer {
    alloc: Global,
    pub(crate) text: Vec<u8>,
    digits: Buffer,
    numeral_cache: NumeralCache,
}

impl Drop for TextBuffer {
    fn drop(self) {
        let TextBuffer {
            alloc: _,
            text: _,
            digits: _,
            numeral_cache: _,
        } = self;
    }
}

impl Model for TextBuffer {
    ghost use Rattle.std.specs.Prelude.{ℕ, List};

    ghost Value = { List ℕ };

    ghost view = { λ b. b.text.items };
}

impl TextBuffer {
    /// Returns an empty buffer. Does not allocate.
    pub fn new(alloc: Global) -> TextBuffer
        ensures { result ≡ [] }
    {
        TextBuffer {
            alloc,
            text: Vec::new(alloc),
            digits: Buffer::new(),
            numeral_cache: NumeralCache::new(alloc),
        }
    }

    /// Returns an empty buffer with memory for `room` bytes. Runs of places of a trace with
    /// `events` events are copied from a cache, whose size depends on `bytes`: the number of bytes
    /// of the texts for which it is worth its memory.
    ///
    /// # Errors
    /// `NoMemory` if an allocation fails.
    pub fn with_room(
        alloc: Global,
        room: u32,
        events: u32,
        bytes: u64,
    ) -> Result<TextBuffer, NoMemory>
        ensures { IfOk result (λ buffer. buffer ≡ []) }
    {
        let cached = (bytes / BYTES_FOR_NUMBER).min(u64::from(events));
        let numeral_cache = NumeralCache::up_to(alloc, cached as u32)?;
        Ok(TextBuffer {
            alloc,
            text: Vec::with_capacity(alloc, room as usize)?,
            digits: Buffer::new(),
            numeral_cache,
        })
    }

    /// Returns the text and leaves the buffer empty.
    pub(crate) fn finish(&mut self) -> Vec<u8>
        ensures { result.items ≡ self.old }
    {
        mem::replace(&mut self.text, Vec::new(self.alloc))
    }

    /// Returns the bytes of the text. Does not allocate.
    pub fn bytes(&self) -> &[u8]
        ensures { result.now ≡ self.now }
    {
        self.text.as_slice()
    }

    /// Empties the buffer, which keeps its memory. Does not allocate.
    pub fn clear(&mut self)
        ensures { self.new ≡ [] }
    {
        self.text.clear();
    }

    /// Appends the text of a row.
    ///
    /// # Errors
    /// `NoMemory` if an allocation fails; a part may have been appended.
    pub fn push_row(&mut self, row: &Row) -> Result<(), NoMemory>
        ensures { OnOk result (self.new ≡ self.old ++ row_text row.now) }
    {
        write_row(self, row)
    }

    /// Appends those of `count` consecutive numbers from `first` on that are in the cache, and
    /// returns how many these are. The others follow them.
    ///
    /// # Errors
    /// `NoMemory` if an allocation fails; a part may have been appended.
    fn put_cached(&mut self, first: u32, count: usize) -> Result<usize, NoMemory>
        requires { first + count ≤ 2 ^ 32 }
        ensures { IfOk result (λ cached. (cached ≤ count)
            × (self.new ≡ self.old ++ run_text first cached)) }
    {
        let cached = self
            .numeral_cache
            .count
            .saturating_sub(first as usize)
            .min(count);
        if cached == 0 {
            return Ok(0);
        }
        let run = self.numeral_cache.run(first, cached);
        self.text.extend_from_slice(run)?;
        Ok(cached)
    }

    /// Appends consecutive numbers one by one.
    ///
    /// # Errors
    /// `NoMemory` if an allocation fails; a part may have been appended.
    fn put_each(&mut self, first: usize, count: usize) -> Result<(), NoMemory>
        requires { first + count ≤ 2 ^ 32 }
        ensures { OnOk result
            (self.new ≡ self.old ++ run_text first count) }
    {
        append_run(&mut self.text, first, first + count)
    }
}

impl Sink for TextBuffer {
    ghost use Rattle.std.specs.Prelude.{◌≡◌};

    type Refused = NoMemory;

    ghost room = { record { has = λ buffer written. buffer ≡ written; least = 0 } };

    fn put(&mut self, bytes: &[u8]) -> Result<(), NoMemory> {
        self.text.extend_from_slice(bytes)?;
        Ok(())
    }

    fn put_number(&mut self, before: &[u8], number: u64) -> Result<(), NoMemory> {
        append_number(&mut self.text, &mut self.digits, before, number)
    }

    fn put_run(&mut self, first: u32, count: usize) -> Result<(), NoMemory> {
        let cached = self.put_cached(first, count)?;
        if cached == count {
            return Ok(());
        }
        self.put_each(first as usize + cached, count - cached)
    }
}
