//! Task numbers that many threads draw without a lock. Each draw is one `fetch_add` on the word of
//! its question. The main contract is [`gather`]: once all claimants are gathered, the numbers
//! drawn for each question are those below its total, each exactly once. Start reading at
//! [`Claims`], the rule of the words.
#![tactic(auto)]

ghost use Rattle.std.specs.Prelude.{◌≡◌, ℕ, ◌+◌, ◌-◌, ◌*◌, ◌^◌, ◌<◌, ◌≤◌, [], ◌∷◌, ◌++◌, length, replicate, slice_index, IfOk, IfErr, MatchResult};
ghost use Rattle.atomic_table.specs.Seated.{TableId};
ghost use Rattle.std.specs.Arc.{arc_value};
ghost use Rattle.claims.specs.Draws.{CountsEachDraw, ClaimantView, AreAllOfOneCall, DrewEachOnce, CountsDraws, draw, draws_of, after_draw, hand, newcomer, once_below, times};

use atomic_table::{Join, Play, Seat, Split, Table, TableRule};
use std::alloc::{AllocError, Global};
use std::collections::LinkedList;
use std::marker::Model;
use std::sync::Arc;
use thiserror::Error;

/// The number of questions. Each has its own word.
pub const QUESTIONS: usize = 256;

/// The largest number of draws of one claimant, over all questions. With at most 64 claimants no
/// word wraps.
pub const MAX_DRAWS: u64 = 1 << 40;

/// One draw. It exists in proofs only.
#[derive(Drop)]
pub struct Draw {
    pub question: u8,
    pub number: u64,
}

/// The draws of a seat, and its parts of the right to know all draws. It exists in proofs only.
#[derive(Drop)]
pub struct Hand {
    pub parts: u64,
    pub draws: LinkedList<Draw>,
}

/// The rule of the words: the word of a question is the number of its draws in all views, and these
/// draws are the numbers below the word, each once.
pub struct Claims;

impl TableRule<(), Hand, usize> for Claims {
    ghost holds = { CountsEachDraw };

    ghost first = { λ n. hand n [] };
}

/// A `fetch_add` gives its claimant the number that it found.
struct Draws;

impl Play<(), Hand> for Draws {
    ghost then = { after_draw };
}

/// A claimant's seat is split off a seat without draws.
struct Cut;

impl Split<Hand> for Cut {
    ghost left = { λ v. hand (v.parts - 1) v.draws };

    ghost right = { λ _. hand 1 [] };
}

/// A claimant's seat joins another seat. It is left without draws.
struct Together;

impl Join<Hand> for Together {
    ghost both = { λ v w. hand (v.parts + w.parts) (v.draws ++ w.draws) };

    ghost spent = { hand 0 [] };
}

/// The claimant has made all its draws.
#[derive(Debug, Drop, Error)]
#[error("all draws are made")]
pub struct Spent;

/// The claimants were not created, since an allocation failed.
#[derive(Debug, Drop, Error)]
#[error("no memory for the claimants")]
pub struct NotMade(#[from(alloc)] AllocError);

/// The table of the words still has another owner. No test meets this error.
#[derive(Debug, Drop, Error)]
#[error("the table was not given up")]
pub struct NotGathered;

/// A claimant, which draws numbers. No two claimants of one call draw the same number.
#[derive(Drop)]
pub struct Claimant {
    table: Arc<Table<(), Hand, usize, Claims, Global>, Global>,
    seat: Seat<(), Hand>,
    drawn: u64,
}

impl Model for Claimant {
    ghost Value = { ClaimantView };

    ghost view = { λ c. record {
      call = c.seat.table_id;
      claimants = (arc_value c.table).shared.key;
      draws = c.seat.me.0.draws;
    } };

    ghost invariant = { λ c. (c.seat.table_id ≡ (arc_value c.table).shared.table_id)
        × (c.seat.table_id.words ≡ 256) × (c.seat.table_id.slots ≡ 0) × (c.seat.me.1 ≡ [])
        × (c.seat.me.0.parts ≡ 1) × (c.drawn ≡ length c.seat.me.0.draws) × (c.drawn ≤ 2 ^ 40) };
}

impl Claimant {
    /// Draws the next number of the question, counted from 0, by one `fetch_add`. Does not lock,
    /// wait or allocate.
    ///
    /// # Errors
    ///
    /// `Spent` exactly if this claimant has made `MAX_DRAWS` draws. No number is drawn.
    pub fn draw(&mut self, question: u8) -> Result<u64, Spent>
        ensures same { (self.new.call ≡ self.old.call) × (self.new.claimants ≡ self.old.claimants) }
        ensures drawn { IfOk result (λ x. (length self.old.draws < 2 ^ 40)
            × (self.new.draws ≡ self.old.draws ++ draw question x ∷ [])) }
        ensures spent { IfErr result (λ _. (length self.old.draws ≡ 2 ^ 40)
            × (self.new.draws ≡ self.old.draws)) }
    {
        if self.drawn >= MAX_DRAWS {
            return Err(Spent);
        }
        let number = self
            .table
            .shared
            .fetch_add::<Draws>(&mut self.seat, question as usize, 1);
        self.drawn += 1;
        Ok(number)
    }
}

/// Creates `n` claimants (1 to 64).
///
/// # Errors
///
/// `NotMade` if an allocation fails.
pub fn claimants(alloc: Global, n: usize) -> Result<Vec<Claimant>, NotMade>
    requires { (1 ≤ n) × (n ≤ 64) }
    ensures { IfOk result (λ v. (call : TableId) × (v.items ≡ replicate n (newcomer call n))) }
{
    let mut made = Vec::new(alloc);
    let (table, mut seat) = Table::of_words(alloc, &[0; QUESTIONS], &n)?;
    let table = Arc::new(alloc, table)?;
    for _ in 1..n {
        let table = Arc::try_clone(&table)?;
        let theirs = table.shared.split_seat::<Cut>(&mut seat);
        let claimant = Claimant {
            table,
            seat: theirs,
            drawn: 0,
        };
        made.push(claimant)?;
    }
    let last = Claimant {
        table,
        seat,
        drawn: 0,
    };
    made.push(last)?;
    Ok(made)
}

/// Returns the number of draws for each question, from the seat with all draws.
fn totals_of(
    table: Table<(), Hand, usize, Claims, Global>,
    seat: Seat<(), Hand>,
) -> [u64; QUESTIONS]
    requires table { (seat.table_id ≡ table.shared.table_id) × (table.shared.table_id.words ≡ 256)
        × (table.shared.table_id.slots ≡ 0) }
    requires whole { seat.me.0.parts ≡ table.shared.key }
    ensures each_once { (q x : ℕ) → q < 256 →
        times q x seat.me.0.draws ≡ once_below x (slice_index result q) }
    ensures counts { (q : ℕ) → q < 256 → draws_of q seat.me.0.draws ≡ slice_index result q }
{
    let closed = table.close_with(seat);
    let mut totals = [0; QUESTIONS];
    for question in 0..QUESTIONS {
        totals[question] = closed.word(question);
    }
    closed.free();
    totals
}

/// Consumes all claimants of one `claimants` call and returns the number of draws for each
/// question. The numbers drawn for a question are exactly those below its total, each once. Part of
/// the public API; not called by the program.
///
/// # Errors
///
/// `NotGathered` if the table of the words still has another owner. The claimants are gone.
pub fn gather(mut claimants: Vec<Claimant>) -> Result<[u64; QUESTIONS], NotGathered>
    requires { AreAllOfOneCall claimants.items }
    ensures each_once { IfOk result (λ totals. DrewEachOnce claimants.items totals) }
    ensures counts { IfOk result (λ totals. CountsDraws claimants.items totals) }
{
    let Some(first) = claimants.pop() else {
        return Err(NotGathered);
    };
    let Claimant {
        table,
        mut seat,
        drawn: _,
    } = first;
    while let Some(next) = claimants.pop() {
        let Claimant {
            table: _,
            seat: theirs,
            drawn: _,
        } = next;
        table.shared.join_seat::<Together>(&mut seat, theirs);
    }
    match Arc::into_inner(table) {
        Some(table) => Ok(totals_of(table, seat)),
        None => Err(NotGathered),
    }
}
