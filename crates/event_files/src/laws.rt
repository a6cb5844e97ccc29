//! A law of the text of refutations.
ghost use Rattle.event_files.specs.Refutations.{RefutationsAreWritable};

/// Each step of a refutation can be written: its member is one of the cycle's, and it derives a
/// place.
pub fn refutations_are_writable()
    ensures { RefutationsAreWritable }
{}
