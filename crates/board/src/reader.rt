//! Reading the board.
ghost use Rattle.std.specs.Prelude.{◌≡◌, ◌⊎◌, [], IfOk, IfErr, OnOk};
ghost use mathlib.Core.List.{IsPrefix};
ghost use Rattle.trace_model.specs.Protocol.Runs.{IsLegal};
ghost use Rattle.left_right.specs.Sides.{view};
ghost use Rattle.board.specs.Entries.{IsBusy};
ghost use Rattle.board.specs.Totals.{Shows};
ghost use Rattle.board.specs.Unsettled.{IsLeastUnsettled, open_questions};

use crate::entry::{Busy, FailedEntries, RuledReader, read_entry};
use crate::history::{HistoryId, HistoryPrefix};
use crate::summary::{Summary, Unsettled};
use std::marker::{Brand, Model};
use std::sync::Wait;
use trace_model::MAX_QUESTIONS;

/// The steps that were published when the receipt was made. Contracts see a receipt as the list of
/// these steps, which is a legal run. Any number of readers may learn it, any number of times.
pub struct Receipt<N: HistoryId> {
    prefix: HistoryPrefix<N>,
}

impl<N: HistoryId> Drop for Receipt<N> {
    fn drop(self) {
        let Receipt { prefix: _ } = self;
    }
}

impl<N: HistoryId> Model for Receipt<N> {
    ghost use Rattle.std.specs.Prelude.{List};
    ghost use Rattle.trace_model.specs.declared.messages.step.BoardStep.{BoardStep};

    ghost Value = { List BoardStep };

    ghost view = { λ r. r.prefix };
}

impl<N: HistoryId> Receipt<N> {
    pub(crate) fn of(prefix: &HistoryPrefix<N>) -> Receipt<N>
        ensures { result ≡ prefix.now }
    {
        Receipt {
            prefix: prefix.again(),
        }
    }

    /// Returns a copy. Does not allocate.
    pub fn again(&self) -> Receipt<N>
        ensures { result ≡ self.now }
    {
        Receipt::of(&self.prefix)
    }

    /// Returns a copy of the later one of two receipts. Both are prefixes of it, since there is one
    /// history. Does not allocate.
    pub fn later(&self, other: &Receipt<N>) -> Receipt<N>
        ensures own { IsPrefix self.now result }
        ensures others { IsPrefix other.now result }
        ensures either { (result ≡ self.now) ⊎ (result ≡ other.now) }
    {
        Receipt {
            prefix: self.prefix.longer(&other.prefix),
        }
    }
}

/// A reader of the board. Contracts see two lists of steps: `seen`, the steps that it has seen,
/// which changes only when it enters the board; and `known`, the steps that it has seen or learned
/// from receipts. `seen` is a prefix of `known`, and `known` is a legal run. They also see
/// `failed`, the number of its entries that failed, modulo 2^64.
pub struct BoardReader<N: HistoryId> {
    /// `None` only while a call of this reader is at work.
    reader: Option<RuledReader<N>>,
    known: HistoryPrefix<N>,
    failed: FailedEntries,
}

impl<N: HistoryId> Drop for BoardReader<N> {
    fn drop(self) {
        let BoardReader {
            reader: _,
            known: _,
            failed: _,
        } = self;
    }
}

impl<N: HistoryId> Model for BoardReader<N> {
    ghost use Rattle.std.specs.Prelude.{[], IsSome};
    ghost use Rattle.std.specs.Option.{option_map_or};
    ghost use mathlib.Core.List.{IsPrefix};
    ghost use Rattle.left_right.specs.Sides as sides;
    ghost use Rattle.trace_model.specs.Protocol.Runs.{IsLegal};
    ghost use Rattle.board.specs.Fits.{ReaderView};

    ghost Value = { ReaderView };

    ghost view = { λ r. record {
      seen = option_map_or (λ x. sides.view x.place) r.reader [];
      known = r.known;
      failed = r.failed.count;
    } };

    ghost invariant = { λ r. IsSome r.reader
        × IsPrefix (option_map_or (λ x. sides.view x.place) r.reader []) r.known
        × IsLegal r.known };
}

impl<N: HistoryId> BoardReader<N> {
    pub(crate) fn new(reader: RuledReader<N>, prefix: &HistoryPrefix<N>) -> BoardReader<N>
        requires { view reader.place ≡ [] }
        ensures seen { result.seen ≡ [] }
        ensures known { result.known ≡ prefix.now }
        ensures failed { result.failed ≡ 0 }
    {
        BoardReader {
            reader: Some(reader),
            known: prefix.again(),
            failed: FailedEntries::none(),
        }
    }

    /// Reads the board: returns the summary of the steps that the reader has then seen. They extend
    /// all that it had seen or learned. Does not allocate or wait.
    ///
    /// # Errors
    ///
    /// `NoEntry` if the board gives no entry, `Behind` if it shows fewer steps than the reader
    /// knows of. The reader counts the failed entry, and changes in nothing else.
    pub fn status(&mut self) -> Result<Summary, Busy>
        ensures summary { IfOk result (λ s. Shows s self.new.seen) }
        ensures all { OnOk result (self.new.known ≡ self.new.seen) }
        ensures later { IsPrefix self.old.known self.new.known }
        ensures seen { IsPrefix self.old.seen self.new.seen }
        ensures legal { IsLegal self.new.known }
        ensures entered { OnOk result (self.new.failed ≡ self.old.failed) }
        ensures busy { IfErr result (IsBusy self.old self.new) }
    {
        let reading = read_entry::<N, Brand>(&mut self.reader, &self.known, &mut self.failed)?;
        let summary = *reading.get().totals();
        self.known = reading.get().prefix().again();
        self.reader = Some(reading.leave());
        Ok(summary)
    }

    /// Reads the board: returns the least question with a missing task whose entry in `passed_over`
    /// is false. Does not allocate, does not wait, and copies only that question's summary.
    ///
    /// # Errors
    ///
    /// As of `status`.
    pub fn least_unsettled(
        &mut self,
        passed_over: &[bool; MAX_QUESTIONS],
    ) -> Result<Option<Unsettled>, Busy>
        ensures found { IfOk result
            (IsLeastUnsettled passed_over.now (open_questions self.new.seen)) }
        ensures all { OnOk result (self.new.known ≡ self.new.seen) }
        ensures later { IsPrefix self.old.known self.new.known }
        ensures seen { IsPrefix self.old.seen self.new.seen }
        ensures legal { IsLegal self.new.known }
        ensures entered { OnOk result (self.new.failed ≡ self.old.failed) }
        ensures busy { IfErr result (IsBusy self.old self.new) }
    {
        let reading = read_entry::<N, Brand>(&mut self.reader, &self.known, &mut self.failed)?;
        let found = reading.get().totals().least_unsettled(passed_over);
        self.known = reading.get().prefix().again();
        self.reader = Some(reading.leave());
        Ok(found)
    }

    /// Learns a receipt: every run that the reader sees from now on extends the receipt's steps.
    /// Does not look at the board, allocate or wait.
    pub fn learn(&mut self, receipt: &Receipt<N>)
        ensures seen { self.new.seen ≡ self.old.seen }
        ensures begins { IsPrefix self.new.seen self.new.known }
        ensures own { IsPrefix self.old.known self.new.known }
        ensures learnt { IsPrefix receipt.now self.new.known }
        ensures legal { IsLegal self.new.known }
        ensures failed { self.new.failed ≡ self.old.failed }
    {
        self.known = self.known.longer(&receipt.prefix);
    }

    /// Learns a receipt that was made after all that the reader knows, like `learn`. If it was made
    /// before, waits forever: for the receipt of a call that began after the reader learned the
    /// last one this does not occur.
    pub fn catch_up<R: Wait>(&mut self, rt: &R, receipt: &Receipt<N>)
        ensures seen { self.new.seen ≡ self.old.seen }
        ensures own { IsPrefix self.old.known self.new.known }
        ensures learnt { self.new.known ≡ receipt.now }
        ensures legal { IsLegal self.new.known }
        ensures failed { self.new.failed ≡ self.old.failed }
    {
        self.known.catch_up(rt, &receipt.prefix);
    }
}
