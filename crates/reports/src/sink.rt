//! Where a text goes, piece by piece: it is measured or written.

ghost use Rattle.std.specs.Prelude.{◌++◌, ◌+◌, ◌≤◌, ◌^◌, decimal};
ghost use Rattle.reports.specs.Sinks.{Room, Appends};
ghost use Rattle.reports.specs.Text.{run_text};

/// A sink for a text.
pub(crate) trait Sink {
    /// Why it accepts no more.
    type Refused;

    /// Which text it has accepted, and how long a text is at least that it refuses.
    ghost room: { Room Self };

    /// Appends these bytes.
    ///
    /// # Errors
    /// `Refused` if there is no room for them; a part may have been appended.
    fn put(&mut self, bytes: &[u8]) -> Result<(), Self::Refused>
        ensures { Appends room self.old bytes.now result self.new };

    /// Appends `before` and then the number in decimal.
    ///
    /// # Errors
    /// `Refused` if there is no room for both; a part may have been appended.
    fn put_number(&mut self, before: &[u8], number: u64) -> Result<(), Self::Refused>
        ensures { Appends room self.old (before.now ++ decimal number) result self.new };

    /// Appends `count` consecutive numbers from `first` on, each in decimal after a space.
    ///
    /// # Errors
    /// `Refused` if there is no room for all; a part may have been appended.
    fn put_run(&mut self, first: u32, count: usize) -> Result<(), Self::Refused>
        requires { first + count ≤ 2 ^ 32 }
        ensures { Appends room self.old (run_text first count) result self.new };
}
