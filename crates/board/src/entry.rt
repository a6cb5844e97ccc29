//! The entry to the kit's board.
ghost use Rattle.std.specs.Prelude.{◌≡◌, [], length, IfOk, IfErr, OnOk, OnErr, IsSome};
ghost use Rattle.std.specs.Option.{option_map_or};
ghost use mathlib.Core.List.{IsPrefix};
ghost use Rattle.trace_model.specs.Protocol.Runs.{IsLegal};
ghost use Rattle.left_right.specs.Sides.{view};
ghost use Rattle.board.specs.Entries.{IsBehind, one_more};

use crate::board_state::BoardState;
use crate::history::{HistoryId, HistoryPrefix};
use crate::rule::{Enter, KnownCount, SeenSteps};
use left_right::reader::{Reader, Reading};

/// Why a reader did not see the board.
#[derive(Clone, Copy, Debug, PartialEq, Eq)]
pub enum Busy {
    /// The board gave no entry.
    NoEntry,
    /// The board shows fewer steps than a receipt that the reader learned.
    Behind,
}

/// The number of a reader's entries that failed, modulo 2^64. Only `read_entry` adds to it. So a
/// contract states that a reader was busy only because an entry failed.
#[derive(Drop)]
pub struct FailedEntries {
    count: u64,
}

impl FailedEntries {
    pub(crate) fn none() -> FailedEntries
        ensures { result.count ≡ 0 }
    {
        FailedEntries { count: 0 }
    }

    fn add_one(&mut self)
        ensures { self.new.count ≡ one_more self.old.count }
    {
        self.count = self.count.wrapping_add(1);
    }
}

/// A reader of the kit's board, under the rule of this crate.
pub(crate) type RuledReader<N> = Reader<BoardState<N>, SeenSteps, BoardState<N>>;

type RuledReading<N> = Reading<BoardState<N>, SeenSteps, BoardState<N>>;

/// Enters the board. On failure the reader is put back, its view does not change, and the failed
/// entry is counted.
pub(crate) fn read_entry<N: HistoryId, K: KnownCount>(
    reader: &mut Option<RuledReader<N>>,
    known: &HistoryPrefix<N>,
    failed: &mut FailedEntries,
) -> Result<RuledReading<N>, Busy>
    requires some { IsSome reader.old }
    requires count { K.count ≡ length known.now }
    ensures seen { IfOk result (λ r. view r.place ≡ r.part.value) }
    ensures later { IfOk result (λ r.
        IsPrefix (option_map_or (λ x. view x.place) reader.old []) r.part.value) }
    ensures learnt { IfOk result (λ r. IsPrefix known.now r.part.value) }
    ensures legal { IfOk result (λ r. IsLegal r.part.value) }
    ensures entered { OnOk result (failed.new ≡ failed.old) }
    ensures back { OnErr result (IsSome reader.new) }
    ensures same { OnErr result (option_map_or (λ x. view x.place) reader.new [] ≡
        option_map_or (λ x. view x.place) reader.old []) }
    ensures counted { OnErr result (failed.new.count ≡ one_more failed.old.count) }
    ensures behind { IfErr result (λ busy. busy ≡ Busy.Behind →
        IsBehind (option_map_or (λ x. view x.place) reader.old []) known.now) }
{
    let Some(entering) = reader.take() else {
        unreachable!();
    };
    match entering.enter_as::<Enter<N, K>>() {
        Ok(reading) => {
            if reading.get().prefix().len() < known.len() {
                failed.add_one();
                *reader = Some(reading.leave());
                return Err(Busy::Behind);
            }
            // for the proof: both are prefixes of one history, so the shorter one is a prefix of
            // the longer one
            let _longer = known.longer(reading.get().prefix());
            Ok(reading)
        }
        Err(back) => {
            failed.add_one();
            *reader = Some(back);
            Err(Busy::NoEntry)
        }
    }
}
