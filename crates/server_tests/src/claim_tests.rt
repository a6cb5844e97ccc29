//! Tests of claims.

ghost use Rattle.std.specs.Prelude.{◌≡◌, ℕ, ◌+◌, ◌*◌, ◌^◌, ◌<◌, ◌≤◌, All, length, slice_index, slice_index_or, IfOk};
ghost use Rattle.claims.specs.Draws.{draws_of};

use claims::{Claimant, QUESTIONS, claimants, gather};
use std::alloc::{AllocError, Global};
use std::test::Fail;
use std::thread;
use std::thread::Threads;

fn draw_often(mut claimant: Claimant, question: u8, draws: u64) -> Claimant
    requires { length claimant.draws + draws ≤ 2 ^ 40 }
    ensures same { (result.call ≡ claimant.call) × (result.claimants ≡ claimant.claimants) }
    ensures drawn { draws_of question result.draws ≡ draws_of question claimant.draws + draws }
{
    for _ in 0..draws {
        let Ok(_) = claimant.draw(question) else {
            unreachable!()
        };
    }
    claimant
}

/// Draws `draws` times with each claimant, each on its own thread.
fn draw_in_threads<R: Threads + Sync>(
    rt: &R,
    made: Vec<Claimant>,
    question: u8,
    draws: u64,
) -> Result<Vec<Claimant>, AllocError>
    requires { All (λ c. length c.draws + draws ≤ 2 ^ 40) made.items }
    ensures len { IfOk result (λ v. length v.items ≡ length made.items) }
    ensures same { IfOk result (λ v. (i : ℕ) (d : _) → i < length made.items →
        ((slice_index_or v.items i d).call ≡ (slice_index_or made.items i d).call)
        × ((slice_index_or v.items i d).claimants ≡ (slice_index_or made.items i d).claimants)) }
    ensures drawn { IfOk result (λ v. (i : ℕ) (d : _) → i < length made.items →
        draws_of question (slice_index_or v.items i d).draws ≡
        draws_of question (slice_index_or made.items i d).draws + draws) }
{
    thread::map_vec(rt, made, &|claimant| draw_often(claimant, question, draws))
}

fn race<R: Threads + Sync>(
    rt: &R,
    alloc: Global,
    n: usize,
    question: u8,
    draws: u64,
) -> Result<[u64; QUESTIONS], Fail>
    requires { (1 ≤ n) × (n ≤ 64) × (draws ≤ 2 ^ 40) }
    ensures { IfOk result (λ totals. slice_index totals question ≡ n * draws) }
{
    let made = claimants(alloc, n)?;
    let drawn = draw_in_threads(rt, made, question, draws)?;
    Ok(gather(drawn)?)
}

#[test]
fn four_threads_draw_a_thousand_each(rt: HostRuntime) -> Result<(), Fail> {
    let totals = race(&rt, rt.alloc(), 4, 0, 1000)?;
    for (question, wanted) in [(0usize, 4000u64), (1, 0), (255, 0)] {
        assert_eq!(rt; totals.get(question), Some(&wanted), "question {question}");
    }
    Ok(())
}
