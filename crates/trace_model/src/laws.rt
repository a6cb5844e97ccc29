//! The laws of the definitions: each function has a theorem as its contract, and no body.

ghost use Rattle.trace_model.specs.Theory.Laws.{HeldListIsHeldSet, HoldsInSection, WriterIsGreatest, ReleaseIsLeast, ClosureIsExistence, ClosureIsSmallest, ClosureIsBefore, ClosureIsStable, LesserIsReached, OccursIffSomeEvent, HeldByOtherIffOwner, HeldAscends, DependenciesAreNumbered, ReachedIsDeadlocked, RowsAreUnique, RowsAreSound, ConfirmedStays, WellFormedGrows, ReorderingIsWalk, ClosureGrows, CaughtIsEarly, ThreadsAreForked, ThreadsAreForkedOnce, NothingFollowsJoin, ReleaseIsOwn, SectionsAreApart};
ghost use Rattle.trace_model.specs.Theory.EventLaws.{OneMoreEvent, OwnerHolds, HeldAreFew, LawfulHigher};
ghost use Rattle.trace_model.specs.Theory.Refutation.{DerivedIsInClosure, RefutedIsNotConfirmed, NotConfirmedIsRefuted};
ghost use Rattle.trace_model.specs.Protocol.RunLaws.{SummariesAreStates, RunsFit, RunsSplit, MachineTakesSteps, RunsAreUnique, RunsAreSound, RunsAreLegal, StatusesAreShown};
ghost use Rattle.trace_model.specs.Protocol.Frames.{OneReading};
ghost use Rattle.trace_model.specs.Protocol.FormerFrames.{FormerTextsKeep};
ghost use Rattle.trace_model.specs.Protocol.Batches.{BatchesAreLongest};

/// States that held sets, writers and releases are what their definitions say.
pub fn lookups_are_exact()
    ensures held { HeldListIsHeldSet }
    ensures section { HoldsInSection }
    ensures writer { WriterIsGreatest }
    ensures release { ReleaseIsLeast }
{}

/// States that some reordering reaches the places exactly if the closure contains none of them, and
/// that the closure is then the smallest such reordering.
pub fn closure_is_existence()
    ensures existence { ClosureIsExistence }
    ensures smallest { ClosureIsSmallest }
{}

/// States that the closure is before the given places, and does not change as the trace grows.
pub fn closure_is_stable()
    ensures before { ClosureIsBefore }
    ensures stable { ClosureIsStable }
{}

/// States that the index-wise lesser of two reached instances is reached.
pub fn lesser_is_reached()
    ensures { LesserIsReached }
{}

/// States that the tests of the admission check decide what is in the trace and what is held, and
/// that held sets ascend.
pub fn held_is_exact()
    ensures stands { OccursIffSomeEvent }
    ensures other { HeldByOtherIffOwner }
    ensures ascends { HeldAscends }
{}

/// States that dependencies are numbered by first appearance.
pub fn dependencies_are_numbered()
    ensures { DependenciesAreNumbered }
{}

/// States that a reordering that reaches an instance of a cycle leaves it deadlocked.
pub fn reached_is_deadlocked()
    ensures { ReachedIsDeadlocked }
{}

/// States that a task has one list of exact rows, and that these rows are sound.
pub fn rows_are_unique()
    ensures unique { RowsAreUnique }
    ensures sound { RowsAreSound }
{}

/// States that a confirmed row stays as the trace grows: its cycle, its instance and its witness do
/// not change.
pub fn confirmed_stays()
    ensures { ConfirmedStays }
{}

/// States that a prefix of a well-formed trace is well formed, and so is a well-formed trace with
/// one more lawful event.
pub fn well_formed_grows()
    ensures { WellFormedGrows }
{}

/// States that in a well-formed trace each thread is forked once, before its events, and has no
/// event after its join.
pub fn threads_are_ordered()
    ensures forked { ThreadsAreForked }
    ensures once { ThreadsAreForkedOnce }
    ensures joined { NothingFollowsJoin }
{}

/// States that in a well-formed trace the thread of a critical section ends it, before the next
/// section on the same lock begins.
pub fn sections_are_apart()
    ensures own { ReleaseIsOwn }
    ensures apart { SectionsAreApart }
{}

/// States that a list is a reordering exactly if each place may come next after the places before
/// it.
pub fn reordering_is_walk()
    ensures { ReorderingIsWalk }
{}

/// States why moving one pointer forward at a time finds the least reached instance.
pub fn pointers_move_forward()
    ensures grows { ClosureGrows }
    ensures caught { CaughtIsEarly }
{}

/// States that a cycle with a refutation is not confirmed, since each derived place is in the
/// closure, and that every cycle that is not confirmed has a refutation.
pub fn refutation_is_exact()
    ensures derived { DerivedIsInClosure }
    ensures sound { RefutedIsNotConfirmed }
    ensures complete { NotConfirmedIsRefuted }
{}

/// States how one more event changes the values that gates and tables store.
pub fn one_more_event()
    ensures more { OneMoreEvent }
    ensures owner { OwnerHolds }
    ensures few { HeldAreFew }
    ensures higher { LawfulHigher }
{}

/// States that the summary of a run is that of the state after it, and that both are within the
/// limits.
pub fn summary_is_state()
    ensures state { SummariesAreStates }
    ensures fits { RunsFit }
{}

/// States how runs are split and continued, and that the machine takes their steps.
pub fn runs_go_on()
    ensures split { RunsSplit }
    ensures takes { MachineTakesSteps }
    ensures unique { RunsAreUnique }
    ensures sound { RunsAreSound }
    ensures legal { RunsAreLegal }
    ensures status { StatusesAreShown }
{}

/// States that a batch is accepted up to its first event that is not lawful after the events before
/// it.
pub fn batches_are_longest()
    ensures { BatchesAreLongest }
{}

/// States that each text of bytes has exactly one reading.
pub fn one_reading()
    ensures { OneReading }
{}

/// States that a text without a batch is read as in the protocol without batches.
pub fn former_texts_keep()
    ensures { FormerTextsKeep }
{}
