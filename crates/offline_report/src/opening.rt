//! A well-formed list of events with its tables.
ghost use Rattle.std.specs.Prelude.{◌≡◌, length, IfOk, IfErr, OnOk};
ghost use Rattle.std.specs.Arc.{arc_value};
ghost use Rattle.trace_model.specs.Theory.Dependencies.{dependencies};
ghost use Rattle.trace_model.specs.Theory.Lawful.{IsWellFormed};
ghost use Rattle.findings.specs.Analyses.{IsAnalysisOf};
ghost use Rattle.offline_report.specs.Offline.{IsNotAdmitted, IsOfflineRefusal, IsReport, IsReportRows};

use crate::parts::{ReportRows, report_rows};
use crate::printing::report_text;
use crate::refused::OfflineRefused;
use crate::tasks::parts_of;
use findings::{Analysis, Hold, Snapshot};
use std::alloc::Global;
use std::hash::RandomState;
use std::marker::Model;
use std::sync::Arc;
use std::thread::Threads;
use trace_model::{Bound, Event, NoMemory};
use wellformed::first_unlawful;

/// Well-formed events with the analysis from which the tasks of a question are computed. Contracts
/// see it as that question, number 0.
#[derive(Drop)]
pub struct Offline {
    pub(crate) alloc: Global,
    pub(crate) analysis: Arc<Analysis, Global>,
}

impl Model for Offline {
    ghost use Rattle.std.specs.Arc.{arc_value};
    ghost use Rattle.findings.specs.Found.{AskedQuestion};

    ghost Value = { AskedQuestion };

    ghost view = { λ o. record {
      question = 0;
      bound = (arc_value o.analysis).bound;
      events = (arc_value o.analysis).events;
    } };
}

impl Offline {
    /// Tests that each event is lawful after those before it, builds the snapshot with two threads,
    /// and computes its analysis. Part of the public API; not called by the program, which builds
    /// the snapshot while it reads the events.
    ///
    /// # Errors
    /// - `Unlawful` with the first event that is not lawful, if there is one.
    /// - `NoMemory` if an allocation fails.
    pub fn open<R: Threads>(
        rt: &R,
        alloc: Global,
        state: RandomState,
        events: Vec<Event>,
        bound: Bound,
    ) -> Result<Offline, OfflineRefused>
        ensures asked { IfOk result
            (λ offline. offline ≡ record { question = 0; bound = bound; events = events.items }) }
        ensures well_formed { IfOk result (λ offline. IsWellFormed events.items) }
        ensures refused { IfErr result (IsNotAdmitted events.items) }
    {
        admit(alloc, state, &events)?;
        let Ok(analysis) = analyze(rt, alloc, state, events, bound) else {
            return Err(OfflineRefused::NoMemory);
        };
        Ok(Offline { alloc, analysis })
    }

    /// Returns the events with this analysis. Does not allocate.
    pub fn of(alloc: Global, analysis: Arc<Analysis, Global>) -> Offline
        ensures { result ≡ record {
          question = 0;
          bound = (arc_value analysis).bound;
          events = (arc_value analysis).events;
        } }
    {
        Offline { alloc, analysis }
    }

    /// Returns the number of tasks: the number of dependencies of the events. Does not allocate.
    pub fn tasks(&self) -> u32
        ensures { result ≡ length (dependencies self.now.events) }
    {
        self.analysis.snapshot().tasks()
    }

    /// Returns the snapshot of the events. Does not allocate.
    pub fn snapshot(&self) -> &Snapshot
        ensures { result.now ≡ self.now.events }
    {
        let analysis: &Analysis = &self.analysis;
        analysis.snapshot()
    }

    /// Returns the rows of the report that a book would give. As many threads as there are
    /// processors compute the tasks. Each task calls the hold, with question 0, when its rows are
    /// computed.
    ///
    /// # Errors
    /// If several tasks fail, the error is that of one of them.
    /// - `TooLong` if the text of the report is too long.
    /// - `NoMemory` if an allocation fails.
    pub fn rows<R: Threads + Sync, H: Hold + Sync>(
        &self,
        rt: &R,
        hold: &H,
    ) -> Result<ReportRows, OfflineRefused>
        ensures rows { IfOk result (IsReportRows self.now.events self.now.bound) }
        ensures refused { IfErr result (IsOfflineRefusal self.now.events self.now.bound) }
    {
        let analysis: &Analysis = &self.analysis;
        let snapshot = analysis.snapshot();
        let length = snapshot.len() as u32;
        let parts = parts_of(rt, self.alloc, &self.analysis, snapshot.tasks(), hold)?;
        match report_rows(self.alloc, length, analysis.bound(), parts) {
            Ok(Some(found)) => Ok(found),
            Ok(None) => Err(OfflineRefused::TooLong),
            Err(_) => Err(OfflineRefused::NoMemory),
        }
    }

    /// Returns the report as one text. See [`Offline::rows`]. Part of the public API; not called by
    /// the program.
    ///
    /// # Errors
    /// Those of [`Offline::rows`].
    pub fn report<R: Threads + Sync, H: Hold + Sync>(
        &self,
        rt: &R,
        hold: &H,
    ) -> Result<Vec<u8>, OfflineRefused>
        ensures text { IfOk result (λ text. IsReport self.now.events self.now.bound text.items) }
        ensures refused { IfErr result (IsOfflineRefusal self.now.events self.now.bound) }
    {
        let found = self.rows(rt, hold)?;
        match report_text(self.alloc, self.snapshot(), found) {
            Ok(text) => Ok(text),
            Err(_) => Err(OfflineRefused::NoMemory),
        }
    }
}

/// Tests that each event is lawful after those before it.
///
/// # Errors
/// - `Unlawful` with the first event that is not lawful, if there is one.
/// - `NoMemory` if an allocation fails.
fn admit(alloc: Global, state: RandomState, events: &[Event]) -> Result<(), OfflineRefused>
    ensures ok { OnOk result (IsWellFormed events.now) }
    ensures refused { IfErr result (IsNotAdmitted events.now) }
{
    match first_unlawful(alloc, state, events) {
        Ok(None) => Ok(()),
        Ok(Some(first)) => Err(OfflineRefused::Unlawful(first)),
        Err(_) => Err(OfflineRefused::NoMemory),
    }
}

/// Returns the shared analysis of the events. The list of the events is freed before its tables are
/// computed.
///
/// # Errors
/// `NoMemory` if an allocation fails.
fn analyze<R: Threads>(
    rt: &R,
    alloc: Global,
    state: RandomState,
    events: Vec<Event>,
    bound: Bound,
) -> Result<Arc<Analysis, Global>, NoMemory>
    requires { IsWellFormed events.items }
    ensures { IfOk result (λ shared. IsAnalysisOf events.items bound (arc_value shared)) }
{
    let snapshot = Snapshot::build(rt, alloc, state, &events)?;
    drop(events);
    let snapshot = Arc::new(alloc, snapshot)?;
    Analysis::new_on(rt, alloc, snapshot, bound)
}
