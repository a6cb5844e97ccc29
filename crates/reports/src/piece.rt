//! The sink that keeps a part of a text.

ghost use Rattle.std.specs.Prelude.{◌≡◌, ◌==◌, ◌+◌, ◌≤◌, ◌^◌, ◌++◌, [], length, decimal};
ghost use Rattle.reports.specs.Pieces.{TakesText};
ghost use Rattle.reports.specs.Text.{run_text};

use crate::sink::Sink;
use arrayvec::ArrayVec;
use itoa::Buffer;
use std::convert::Infallible;

/// The largest number of bytes of a piece.
pub const PIECE: usize = 4096;

/// A piece of a text, in the value itself. As a sink it takes a whole text and keeps its bytes from
/// an index on, until it is full.
#[derive(Drop)]
pub struct Piece {
    pub(crate) text: ArrayVec<u8, PIECE>,
    /// The number of bytes before the first kept one that are still to come.
    pub(crate) skip: usize,
}

impl Piece {
    /// Returns an empty piece.
    pub fn new() -> Piece
        ensures { result.text.items ≡ [] }
    {
        Piece {
            text: ArrayVec::new(),
            skip: 0,
        }
    }

    /// Returns its bytes.
    pub fn bytes(&self) -> &[u8]
        ensures { result.now ≡ self.now.text.items }
    {
        self.text.as_slice()
    }

    /// Begins a piece of another text, whose bytes it keeps from this index on.
    pub(crate) fn begin(&mut self, from: usize)
        ensures empty { self.new.text.items ≡ [] }
        ensures from { self.new.skip ≡ from }
    {
        self.text.clear();
        self.skip = from;
    }

    /// Returns whether no more byte fits.
    pub(crate) fn is_full(&self) -> bool
        ensures { result ≡ (length self.now.text.items == 4096) }
    {
        self.text.is_full()
    }

    /// TakesText more bytes of the text.
    pub(crate) fn take(&mut self, bytes: &[u8])
        ensures { TakesText self.old bytes.now self.new }
    {
        let skipped = self.skip.min(bytes.len());
        self.skip -= skipped;
        let count = (bytes.len() - skipped).min(self.text.remaining_capacity());
        let kept = &bytes[skipped..skipped + count];
        let Ok(()) = self.text.try_extend_from_slice(kept) else {
            unreachable!()
        };
    }

    /// TakesText `before` and then the number in decimal.
    fn take_number(&mut self, before: &[u8], number: u64)
        ensures { TakesText self.old (before.now ++ decimal number) self.new }
    {
        self.take(before);
        let mut digits = Buffer::new();
        self.take(digits.format(number).as_bytes());
    }

    /// TakesText `count` consecutive numbers from `first` on, each in decimal after a space.
    pub(crate) fn take_run(&mut self, first: u32, count: usize)
        requires { first + count ≤ 2 ^ 32 }
        ensures { TakesText self.old (run_text first count) self.new }
    {
        let first = first as usize;
        for number in first..first + count {
            self.take_number(b" ", number as u64);
        }
    }
}

impl Sink for Piece {
    ghost use Rattle.reports.specs.Sinks.{KeepsWindow};

    type Refused = Infallible;

    ghost room = { record {
      has = λ piece taken. KeepsWindow piece.skip piece.text.items taken;
      least = 0;
    } };

    fn put(&mut self, bytes: &[u8]) -> Result<(), Infallible> {
        self.take(bytes);
        Ok(())
    }

    fn put_number(&mut self, before: &[u8], number: u64) -> Result<(), Infallible> {
        self.take_number(before, number);
        Ok(())
    }

    fn put_run(&mut self, first: u32, count: usize) -> Result<(), Infallible> {
        self.take_run(first, count);
        Ok(())
    }
}
