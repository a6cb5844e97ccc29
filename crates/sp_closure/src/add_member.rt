//! Adds the members of a cycle, one after another.

ghost use Rattle.std.specs.Prelude.{◌≡◌, ◌<◌, ◌++◌, ◌∷◌, [], length, IfOk};
ghost use Rattle.dependencies.specs.Tables.{table_dependencies, dependency_places, NumbersWholeTrace};
ghost use Rattle.fronts.specs.Members.{StopsIn, lists};
ghost use Rattle.fronts.specs.Slots.{slots_of, AreThreadSlots};
ghost use Rattle.sp_closure.specs.Pointers.{IsFirstPlace};
ghost use Rattle.sp_closure.specs.Entering.{IsFirstMember};
ghost use Rattle.fronts.specs.Context.{IsReadyContext, CountsSteps, IfGoes, GoesOn, context_events, slots, fronts, items, state, thread_count};
ghost use Rattle.fronts.specs.Propagation.{IsFit, AreAtFront, IsBound, IsConsistent, AreKnownSlots};

use dependencies::DepTable;
use fronts::{
    Context, Member, Propagation, SlotTable, Steps, ThreadPrefix, greater, prefix_before,
};
use std::sync::ledger::Ledger;
use trace_index::TraceIndex;
use trace_model::NoMemory;

/// Returns a member at the first place of the dependency `number`.
pub(crate) fn first_member<'a>(
    index: &TraceIndex,
    threads: &SlotTable,
    table: &'a DepTable,
    number: u32,
) -> Member<'a>
    requires slots { AreThreadSlots index.now.events threads.now }
    requires one_trace { NumbersWholeTrace table.now index.now.events }
    requires known { number < length (table_dependencies table.now) }
    ensures member { IsFirstMember index.now.events (slots_of threads.now)
        (dependency_places table.now number) result }
    ensures first { IsFirstPlace index.now.events number result.place }
{
    let places = table.places(number);
    let _count = places.len(); // for the proof
    let place = places.get(0);
    let prefix = prefix_before(index, threads, place);
    Member {
        places,
        entry: 0,
        place,
        slot: prefix.slot,
        number: prefix.count,
    }
}

/// Adds a member for the dependency `number`, at the first of its places that is not included.
/// Returns `false` if there is none.
///
/// # Errors
/// `NoMemory` if an allocation fails.
pub(crate) fn add_member<'a, L: Ledger>(
    propagation: &mut Propagation,
    context: &Context<'_>,
    table: &'a DepTable,
    members: &mut Vec<Member<'a>>,
    number: u32,
    steps: &mut Steps<L>,
) -> Result<bool, NoMemory>
    requires ready { IsReadyContext context.now propagation.old members.old.items }
    requires consistent { IsConsistent (items context.now) (state context.now propagation.old) }
    requires pending { AreKnownSlots (thread_count context.now) propagation.old.pending.items }
    requires one_trace { NumbersWholeTrace table.now (context_events context.now) }
    requires known { number < length (table_dependencies table.now) }
    ensures fits { IsFit
        (context_events context.now) context.now.requirements.now context.now.under.now
        propagation.new }
    ensures steps { CountsSteps context.now steps.old propagation.old steps.new propagation.new }
    ensures lists { IfOk result (λ goes. lists members.new.items ≡ lists members.old.items ++
        dependency_places table.now number ∷ []) }
    ensures consistent { IfGoes result (IsConsistent (items context.now)
        (state context.now propagation.new)) }
    ensures pending { IfGoes result (AreKnownSlots (thread_count context.now)
        propagation.new.pending.items) }
    ensures behind { IfGoes result (AreAtFront (context_events context.now) (slots context.now)
        (fronts context.now propagation.new) members.new.items) }
    ensures bound { IfOk result (GoesOn
        (StopsIn (context_events context.now) (dependency_places table.now number))
        (IsBound (context_events context.now) (slots context.now)
        (fronts context.now propagation.old)
        members.old.items)
        (IsBound (context_events context.now) (slots context.now)
        (fronts context.now propagation.new)
        members.new.items)) }
{
    let member = first_member(context.index, &context.requirements.threads, table, number);
    let slot = member.slot;
    let front = propagation.overlay.front(context.under, slot).count();
    let prefix = ThreadPrefix {
        slot,
        count: greater(front, member.number),
    };
    members.push(member)?;
    propagation.raise_to(context, members.as_mut_slice(), prefix, steps)
}
