//! Laws of the verdict.

ghost use Rattle.replay.specs.Laws.{ReachesIsReordering, VerdictIsUnique};

/// Proves: no test fails exactly if the list is a sync-preserving reordering of the trace that
/// reaches the instance, and the places of the instance are in the trace. Part of the public API;
/// not called by the program.
pub fn reaches_is_reordering()
    ensures { ReachesIsReordering }
{}

/// Proves: there is exactly one verdict. Part of the public API; not called by the program.
pub fn verdict_is_unique()
    ensures { VerdictIsUnique }
{}
