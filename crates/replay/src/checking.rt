//! Checks a list of places against a trace.

ghost use Rattle.std.specs.Prelude.{◌≡◌, ◌↔◌, [], IfOk};
ghost use Rattle.trace_model.specs.Theory.Lawful.{IsWellFormed};
ghost use Rattle.replay.specs.declared.verdict.Verdict.{Verdict};
ghost use Rattle.replay.specs.Facts.{AreFacts};
ghost use Rattle.replay.specs.Laws.{IsWitnessFor};
ghost use Rattle.replay.specs.Walking.{IsWalked};
ghost use Rattle.replay.specs.Verdict.{IsVerdict, OrderPasses};

use crate::facts::{Facts, facts_of};
use crate::order_rules::Known;
use crate::verdict::Verdict;
use crate::walked::Walked;
use std::alloc::Global;
use std::collections::hash_map::RandomState;
use trace_model::{Event, Instance, NoMemory, Place};

/// Walks along the list `order`, and then along the places of `instance`. Returns the first test
/// that fails, with its place, or `Reaches`.
///
/// `order` is the list to check, in its order; it may contain any numbers. `Reaches` is returned
/// exactly if the list is a sync-preserving reordering of the trace that reaches the instance, and
/// the places of the instance are in the trace. Takes a few passes over the trace and one over the
/// list; the time depends only on both lengths.
///
/// The caller passes a well-formed trace.
///
/// # Errors
/// `NoMemory` if an allocation fails.
pub fn check(
    alloc: Global,
    state: RandomState,
    trace: &[Event],
    order: &[Place],
    instance: &Instance,
) -> Result<Verdict, NoMemory>
    requires { IsWellFormed trace.now }
    ensures verdict { IfOk result (λ v. IsVerdict trace.now order.now instance.now v) }
    ensures exact { IfOk result (λ v.
        (v ≡ Verdict.Reaches) ↔ IsWitnessFor trace.now order.now instance.now) }
{
    let facts = facts_of(alloc, state, trace)?;
    let mut walked = Walked::new(alloc, state, trace.len())?;
    walk(trace, order, instance, &facts, &mut walked)
}

/// Returns the verdict, by one walk along the list from its start.
///
/// # Errors
/// `NoMemory` if an allocation fails.
pub(crate) fn walk(
    trace: &[Event],
    order: &[Place],
    instance: &Instance,
    facts: &Facts,
    walked: &mut Walked,
) -> Result<Verdict, NoMemory>
    requires well_formed { IsWellFormed trace.now }
    requires facts { AreFacts trace.now facts.now }
    requires begins { IsWalked trace.now [] walked.old }
    ensures { IfOk result (λ v. IsVerdict trace.now order.now instance.now v) }
{
    for k in 0..order.len() {
        let place = order[k];
        let known = Known {
            trace,
            passed: &order[..k],
            facts,
            walked,
        };
        if let Some(fault) = known.order_fault(place) {
            return Ok(Verdict::Fails(fault, place));
        }
        let begun = known.begun(place);
        walked.push(place, trace[place.get() as usize].op, begun)?;
    }
    Ok(check_instance(trace, order, facts, walked, instance))
}

/// Returns the first test that fails at a place of the instance, after the walk to the end of the
/// list, or `Reaches`.
fn check_instance(
    trace: &[Event],
    order: &[Place],
    facts: &Facts,
    walked: &Walked,
    instance: &Instance,
) -> Verdict
    requires facts { AreFacts trace.now facts.now }
    requires walked { IsWalked trace.now order.now walked.now }
    requires passes { OrderPasses trace.now order.now }
    ensures { IsVerdict trace.now order.now instance.now result }
{
    let known = Known {
        trace,
        passed: order,
        facts,
        walked,
    };
    for member in 0..instance.len() {
        let Some(place) = instance.get(member) else {
            unreachable!()
        };
        if let Some(fault) = known.instance_fault(place) {
            return Verdict::Fails(fault, place);
        }
    }
    Verdict::Reaches
}
