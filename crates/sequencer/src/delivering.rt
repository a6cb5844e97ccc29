//! Delivering findings from any source.

ghost use Rattle.std.specs.Prelude.{◌≡◌, ◌≤◌, length, take, slice_get, IfErr, OnOk, None};
ghost use Rattle.std.specs.Result.{result_err};
ghost use Rattle.std.specs.Option.{option_eq};
ghost use Rattle.trace_model.specs.Protocol.Machine.{deliver, same_event, same_events};
ghost use Rattle.snapshots.specs.Found.{AreRowsOf};
ghost use Rattle.sequencer.specs.Book.{AreEventsIfOpen, finding_refused, findings_rows, outcome};

use crate::book::Book;
use crate::recorder::Recorder;
use snapshots::{Finding, Snapshot};
use trace_model::{Place, Refusal};

/// The outcome of a finding: taken, or refused and given back.
pub type Delivered = Result<(), (Refusal, Finding)>;

impl Book {
    /// Takes the rows of one task. Does not allocate.
    ///
    /// # Errors
    ///
    /// The refusal of `admits`, with the finding. Nothing changes.
    pub fn deliver(&mut self, finding: Finding) -> Delivered
        ensures machine { deliver self.old.state finding.question finding.bound finding.events
            finding.task (findings_rows finding) ≡ (outcome result, self.new.state) }
        ensures back { IfErr result (λ refused. refused.1 ≡ finding) }
        ensures exact { OnOk result
            (AreRowsOf finding.events finding.bound finding.task finding.rows) }
    {
        let admitted = self.admits(&finding);
        self.take_if(admitted, finding)
    }

    /// Delivers like `deliver`, without comparing the finding's events. The caller must know that
    /// they are those of the question. Does not allocate.
    ///
    /// # Errors
    ///
    /// As of `deliver`.
    pub fn deliver_known(&mut self, finding: Finding) -> Delivered
        requires known { AreEventsIfOpen self.old.state finding.question finding.events }
        ensures machine { deliver self.old.state finding.question finding.bound finding.events
            finding.task (findings_rows finding) ≡ (outcome result, self.new.state) }
        ensures back { IfErr result (λ refused. refused.1 ≡ finding) }
        ensures exact { OnOk result
            (AreRowsOf finding.events finding.bound finding.task finding.rows) }
    {
        let admitted = self.admits_known(&finding);
        self.take_if(admitted, finding)
    }

    /// Checks whether the finding may be taken. Does not allocate.
    ///
    /// # Errors
    ///
    /// The first that applies:
    /// - `NoSuchQuestion` if its question is not open.
    /// - `OtherBound` if its bound is not the question's.
    /// - `OtherTrace` if its events, compared one by one, are not those of the question.
    /// - `NoSuchTask` if its task is not below the question's total.
    /// - `Double` if its task was delivered before.
    pub fn admits(&self, finding: &Finding) -> Result<(), Refusal>
        ensures { result_err result ≡ finding_refused self.now.state finding.now }
    {
        let Some(asked) = self.question(finding.question()) else {
            return Err(Refusal::NoSuchQuestion);
        };
        if finding.bound() != asked.bound() {
            return Err(Refusal::OtherBound);
        }
        if !is_of(finding.snapshot(), &self.recorder, asked.length()) {
            return Err(Refusal::OtherTrace);
        }
        asked.check(finding.task())
    }

    /// Checks like `admits`, without comparing the finding's events. The caller must know that they
    /// are those of the question. Does not allocate.
    ///
    /// # Errors
    ///
    /// As of `admits`, except `OtherTrace`.
    pub fn admits_known(&self, finding: &Finding) -> Result<(), Refusal>
        requires known { AreEventsIfOpen self.now.state finding.now.question finding.now.events }
        ensures { result_err result ≡ finding_refused self.now.state finding.now }
    {
        let Some(asked) = self.question(finding.question()) else {
            return Err(Refusal::NoSuchQuestion);
        };
        if finding.bound() != asked.bound() {
            return Err(Refusal::OtherBound);
        }
        asked.check(finding.task())
    }

    /// Takes a finding for which `admits` returns `Ok`. Does not allocate.
    pub fn take(&mut self, finding: Finding)
        requires { finding_refused self.old.state finding ≡ None }
        ensures machine { deliver self.old.state finding.question finding.bound finding.events
            finding.task (findings_rows finding) ≡ (None, self.new.state) }
        ensures exact { AreRowsOf finding.events finding.bound finding.task finding.rows }
    {
        let question = finding.question() as usize;
        let task = finding.task();
        let asked = &mut self.questions[question];
        asked.record(task, finding.into_rows());
    }

    /// Takes the finding if it was admitted, else gives it back with its refusal.
    fn take_if(&mut self, admitted: Result<(), Refusal>, finding: Finding) -> Delivered
        requires { result_err admitted ≡ finding_refused self.old.state finding }
        ensures machine { deliver self.old.state finding.question finding.bound finding.events
            finding.task (findings_rows finding) ≡ (outcome result, self.new.state) }
        ensures back { IfErr result (λ refused. refused.1 ≡ finding) }
        ensures exact { OnOk result
            (AreRowsOf finding.events finding.bound finding.task finding.rows) }
    {
        match admitted {
            Ok(()) => {
                self.take(finding);
                Ok(())
            }
            Err(refusal) => Err((refusal, finding)),
        }
    }
}

/// Returns whether the snapshot has exactly the first `count` recorded events, compared one by one.
fn is_of(snapshot: &Snapshot, recorder: &Recorder, count: u32) -> bool
    requires { count ≤ length recorder.now.events }
    ensures { result ≡ same_events snapshot.now (take count recorder.now.events) }
{
    if snapshot.len() != count as usize {
        return false;
    }
    for index in 0..count {
        if !is_at(snapshot, recorder, index) {
            return false;
        }
    }
    true
}

/// Returns whether both have the same event at this place, or both have none.
fn is_at(snapshot: &Snapshot, recorder: &Recorder, index: u32) -> bool
    ensures { result ≡ option_eq same_event (slice_get snapshot.now index)
        (slice_get recorder.now.events index) }
{
    let place = Place::new(index);
    match (snapshot.event(place), recorder.event(place)) {
        (Some(own), Some(event)) => own == event,
        (None, None) => true,
        _ => false,
    }
}
