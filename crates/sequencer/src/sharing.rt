//! Snapshots of the events that a question covers.

ghost use Rattle.std.specs.Prelude.{◌≡◌, ◌+◌, ◌<◌, ◌≤◌, slice_get, take, IfErr, IfOk, Some};
ghost use Rattle.std.specs.Arc.{arc_value};
ghost use Rattle.trace_model.specs.Protocol.Machine.{Question};
ghost use Rattle.sequencer.specs.Book.{RefusesSnapshot};

use crate::book::Book;
use snapshots::Snapshot;
use std::alloc::Global;
use std::marker::Brand;
use std::sync::Arc;
use std::sync::ledger::{Blank, Ledger};
use trace_index::Steps;
use trace_model::Refusal;

impl Book {
    /// Returns a snapshot of exactly the events that the question covers, with what is needed to
    /// compute its tasks.
    ///
    /// # Errors
    ///
    /// `NoSuchQuestion` if it is not open; `NoMemory` if an allocation fails.
    pub fn snapshot(&self, question: u32) -> Result<Arc<Snapshot, Global>, Refusal>
        ensures ok { IfOk result (λ shared. (q : Question)
            × (slice_get self.now.state.questions question ≡ Some q)
            × (arc_value shared ≡ take q.length self.now.state.accepted)) }
        ensures refused { IfErr result (RefusesSnapshot self.now.state question) }
    {
        let _ = &self.recorder; // for the proof
        snapshot_of::<Brand>(self, question, Blank::new(1))
    }

    /// Returns a snapshot like `snapshot`, and adds the number of copied events to `copies`: at
    /// most 4,096. Full segments are shared.
    ///
    /// # Errors
    ///
    /// As of `snapshot`.
    pub fn snapshot_counted<L: Ledger>(
        &self,
        question: u32,
        copies: &mut Steps<L>,
    ) -> Result<Arc<Snapshot, Global>, Refusal>
        ensures ok { IfOk result (λ shared. (q : Question)
            × (slice_get self.now.state.questions question ≡ Some q)
            × (arc_value shared ≡ take q.length self.now.state.accepted)) }
        ensures refused { IfErr result (RefusesSnapshot self.now.state question) }
        ensures copies { copies.new ≤ copies.old + 4096 }
    {
        let Some(asked) = self.question(question) else {
            return Err(Refusal::NoSuchQuestion);
        };
        match self
            .recorder
            .snapshot(asked.length(), asked.total(), copies)
        {
            Ok(shared) => Ok(shared),
            Err(_) => Err(Refusal::NoMemory),
        }
    }
}

/// Returns the snapshot of a question, with a new count.
fn snapshot_of<L: Ledger>(
    book: &Book,
    question: u32,
    blank: Blank,
) -> Result<Arc<Snapshot, Global>, Refusal>
    requires name { blank.name ≡ L.name }
    requires parts { blank.parts ≡ L.parts }
    requires some { 0 < L.parts }
    ensures ok { IfOk result (λ shared. (q : Question)
        × (slice_get book.now.state.questions question ≡ Some q)
        × (arc_value shared ≡ take q.length book.now.state.accepted)) }
    ensures refused { IfErr result (RefusesSnapshot book.now.state question) }
{
    let mut copies = Steps::<L>::new(blank);
    book.snapshot_counted(question, &mut copies)
}
