//! Laws: a table of held locks that is updated at each event follows the trace.

ghost use Rattle.held_sets.specs.Tables.{HoldingTablesFollow, HoldingTablesGrow, AcquiresFit, LawfulAcquiresFit};

/// States that a table that records each acquire and release has the held locks and depths of each
/// thread after the trace.
pub fn held_follows()
    ensures follow { HoldingTablesFollow }
    ensures grow { HoldingTablesGrow }
{}

/// States that each lawful acquire meets what `HeldTable::record` requires.
pub fn acquires_fit()
    ensures placed { AcquiresFit }
    ensures next { LawfulAcquiresFit }
{}
