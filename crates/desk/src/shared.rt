//! The analysis that workers share.

ghost use Rattle.std.specs.Prelude.{◌≡◌, ◌≢◌, slice_get, IfOk, IsSomeAnd, IsTrue, None, OnErr};
ghost use Rattle.std.specs.Arc.{arc_value};
ghost use Rattle.std.specs.Option.{option_eq};
ghost use Rattle.trace_model.specs.Protocol.Machine.{same_event};
ghost use Rattle.findings.specs.Analyses.{IsAnalysisOf};

use findings::{Analysis, Snapshot};
use std::alloc::Global;
use std::sync::Arc;
use trace_model::{Bound, NoMemory, Place};

/// The analysis of the question that workers work on, which their jobs share.
#[derive(Drop)]
pub(crate) struct SharedAnalysis {
    question: u32,
    kept: Option<Arc<Analysis, Global>>,
}

impl SharedAnalysis {
    /// Keeps no analysis.
    pub(crate) fn new() -> SharedAnalysis
        ensures { result.kept ≡ None }
    {
        SharedAnalysis {
            question: 0,
            kept: None,
        }
    }

    /// Returns the analysis of the question, which covers the snapshot's events and has this bound:
    /// the kept one, or else a new one, which is then kept.
    ///
    /// # Errors
    ///
    /// `NoMemory` if an allocation fails. No analysis is kept then.
    pub(crate) fn get_or_make(
        &mut self,
        alloc: Global,
        question: u32,
        snapshot: Arc<Snapshot, Global>,
        bound: Bound,
    ) -> Result<Arc<Analysis, Global>, NoMemory>
        ensures own { IfOk result (λ own.
            IsAnalysisOf (arc_value snapshot) bound (arc_value own)) }
        ensures kept { IfOk result (λ own. (self.new.question ≡ question)
            × IsSomeAnd self.new.kept (λ kept. arc_value kept ≡ arc_value own)) }
        ensures none { OnErr result (self.new.kept ≡ None) }
    {
        if let Some(kept) = self.kept.take()
            && self.question == question
            && is_of(&kept, &snapshot, bound)
        {
            self.kept = Some(Arc::try_clone(&kept)?);
            return Ok(kept);
        }
        let own = Analysis::new(alloc, snapshot, bound)?;
        self.kept = Some(Arc::try_clone(&own)?);
        self.question = question;
        Ok(own)
    }

    /// Drops the analysis if it is of the question.
    pub(crate) fn end(&mut self, question: u32)
        ensures ended { self.old.question ≡ question → self.new.kept ≡ None }
        ensures others { self.old.question ≢ question → self.new ≡ self.old }
    {
        if self.question == question {
            self.kept = None;
        }
    }
}

/// Returns whether the analysis has this bound and the snapshot's events.
fn is_of(analysis: &Analysis, snapshot: &Snapshot, bound: Bound) -> bool
    ensures { IsTrue result → (analysis.now.events ≡ snapshot.now) × (analysis.now.bound ≡ bound) }
{
    analysis.bound() == bound && have_same_events(analysis.snapshot(), snapshot)
}

/// Returns whether both have the same events, compared one by one.
fn have_same_events(first: &Snapshot, second: &Snapshot) -> bool
    ensures { IsTrue result → first.now ≡ second.now }
{
    let len = first.len();
    if second.len() != len {
        return false;
    }
    for index in 0..len {
        if !have_same_event(first, second, Place::new(index as u32)) {
            return false;
        }
    }
    true
}

/// Returns whether both have the same event at this place, or both have none.
fn have_same_event(first: &Snapshot, second: &Snapshot, place: Place) -> bool
    ensures { result ≡ option_eq same_event (slice_get first.now place)
        (slice_get second.now place) }
{
    match (first.event(place), second.event(place)) {
        (Some(event), Some(other)) => event == other,
        (None, None) => true,
        _ => false,
    }
}
