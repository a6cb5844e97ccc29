//! Parses the lines of explained cycles.
ghost use Rattle.std.specs.Prelude.{◌≡◌, ◌≢◌, ℕ, ◌≤◌, Bool, List, ◌∷◌, [], ◌++◌, IfOk, IfSome, IsSomeAnd, MatchOption, Option, Some, codes, length, option_map, option_to_list};
ghost use Rattle.trace_model.specs.declared.refutations.Derived.{Derived};
ghost use Rattle.event_files.specs.ExplainedLines.{IsTextOfLine, StatedLine, stated_line};
ghost use Rattle.event_files.specs.ExplainedText.{StatedMember, cycle_line, entry_numbers, head_line, head_numbers, stated_member_line, member_numbers, place_words, stated_member, verdict_words, stated_witness_line};
ghost use Rattle.event_files.specs.NumberedText.{AreSmall};
ghost use Rattle.event_files.specs.Refutations.{conclusion_line, entry_line, label_and_number, reason_line};
ghost use Rattle.event_files.specs.declared.explanations.ReportHead.{ReportHead};

use crate::explanations::{ExplainedMember, ReportHead};
use crate::numbered_text::{after, is_literal, number_after, numbers_in, pair_in};
use std::alloc::Global;
use trace_model::{Cycle, Derived, NoMemory, Place, Reason};

/// A line of a file of explained cycles.
#[derive(Drop)]
pub(crate) enum ExplainedLine {
    /// The first line of a report.
    Head(ReportHead),
    /// The numbers of a cycle, and whether it is confirmed.
    Row(Cycle, bool),
    /// A member of a cycle.
    Member(ExplainedMember),
    /// The places of a witness.
    Places(Vec<Place>),
    /// An entry of a derivation.
    Entry(Derived),
    /// The thread and the place of a conclusion.
    Conclusion(u32, Place),
}

/// Returns the first line of a report with this text, or `None`.
fn head_in(text: &[u8]) -> Option<ReportHead>
    ensures sound { IfSome result (λ h. text.now ≡ head_line h) }
    ensures small { IfSome result (λ h. AreSmall (head_numbers h)) }
    ensures complete { (h : ReportHead) → AreSmall (head_numbers h) → text.now ≡ head_line h →
        result ≡ Some h }
{
    let (question, rest) = number_after(text, b"question ")?;
    let (length, rest) = number_after(rest, b" length ")?;
    let (bound, rest) = number_after(rest, b" bound ")?;
    let (cycles, confirmed) = pair_in(rest, b" cycles ", b" confirmed ", b"")?;
    Some(ReportHead {
        question,
        length,
        bound,
        cycles,
        confirmed,
    })
}

/// Returns the thread and the place of the conclusion with this text, or `None`.
fn conclusion_in(text: &[u8]) -> Option<(u32, u32)>
    ensures sound { IfSome result (λ found. text.now ≡ conclusion_line found.0 found.1) }
    ensures small { IfSome result (λ found. AreSmall (found.0 ∷ found.1 ∷ [])) }
    ensures complete { (thread place : ℕ) → AreSmall (thread ∷ place ∷ []) →
        text.now ≡ conclusion_line thread place → result ≡ Some (thread, place) }
{
    let ending = b" cannot stop before it";
    let (place, thread) = pair_in(text, b"  so place ", b" must run: thread ", ending)?;
    Some((thread, place))
}

/// Returns an entry.
fn entry(place: u32, reason: Reason) -> Derived
    ensures { result ≡ record { place = place; reason = reason } }
{
    let place = Place::new(place);
    Derived { place, reason }
}

/// Returns the places of the sections and the derived place of the entry with this text, or `None`.
fn sections_in(text: &[u8]) -> Option<(u32, u32, u32)>
    ensures sound { IfSome result (λ found.
        text.now ≡ reason_line (Reason.Sections found.0 found.1) found.2) }
    ensures complete { (first second place : ℕ) → AreSmall (first ∷ second ∷ place ∷ []) →
        text.now ≡ reason_line (Reason.Sections first second) place →
        result ≡ Some (first, second, place) }
{
    let (first, rest) = number_after(text, b"  places ")?;
    let label = b" acquire one lock: place ";
    let (second, place) = pair_in(rest, b" and ", label, b" releases it between them")?;
    Some((first, second, place))
}

/// Returns the entry with this text, or `None`.
fn entry_in(text: &[u8]) -> Option<Derived>
    ensures sound { IfSome result (λ d. text.now ≡ entry_line d) }
    ensures small { IfSome result (λ d. AreSmall (entry_numbers d)) }
    ensures complete { (d : Derived) → AreSmall (entry_numbers d) → text.now ≡ entry_line d →
        result ≡ Some d }
{
    let place_of = b"  place ";
    let needs = b" needs place ";
    if let Some((of, p)) = pair_in(text, b"  before place ", b" its thread runs place ", b"") {
        return Some(entry(p, Reason::BeforeMember(Place::new(of))));
    }
    if let Some((of, p)) = pair_in(text, place_of, needs, b": earlier in its thread") {
        return Some(entry(p, Reason::ThreadOrder(Place::new(of))));
    }
    if let Some((of, p)) = pair_in(text, place_of, needs, b": fork or join") {
        return Some(entry(p, Reason::ForkJoin(Place::new(of))));
    }
    if let Some((of, p)) = pair_in(text, place_of, b" reads what place ", b" wrote") {
        return Some(entry(p, Reason::ReadsFrom(Place::new(of))));
    }
    let (first, second, p) = sections_in(text)?;
    Some(entry(p, Reason::Sections(Place::new(first), Place::new(second))))
}

/// Returns the thread and the lock at the beginning of the line of a member, and the rest from its
/// held locks on, or `None`.
fn holder_in(text: &[u8]) -> Option<(u32, u32, &[u8])>
    ensures sound { IfSome result (λ found. text.now
        ≡ label_and_number (codes "  thread ") found.0 ++
        label_and_number (codes " lock ") found.1 ++ codes " holds" ++ found.2.now) }
    ensures complete { (thread lock : ℕ) (rest : List ℕ) → AreSmall (thread ∷ lock ∷ []) →
        text.now ≡ label_and_number (codes "  thread ") thread
        ++ label_and_number (codes " lock ") lock ++
        codes " holds" ++ rest →
        IsSomeAnd result (λ found.
        (found.0 ≡ thread) × (found.1 ≡ lock) × (found.2.now ≡ rest)) }
{
    let (thread, rest) = number_after(text, b"  thread ")?;
    let (lock, rest) = number_after(rest, b" lock ")?;
    let rest = after(rest, b" holds")?;
    Some((thread, lock, rest))
}

/// Returns the place at the end of the line of a member, or none if the text is empty. Returns
/// `None` for any other text.
fn place_in(text: &[u8]) -> Option<Option<Place>>
    ensures sound { IfSome result (λ place. text.now ≡ place_words place) }
    ensures small { IfSome result (λ place. AreSmall (option_to_list place)) }
    ensures complete { (place : Option ℕ) → AreSmall (option_to_list place) →
        text.now ≡ place_words place → result ≡ Some place }
{
    if text.is_empty() {
        return Some(None);
    }
    let (index, rest) = number_after(text, b" place ")?;
    if rest.is_empty() {
        Some(Some(Place::new(index)))
    } else {
        None
    }
}

/// Returns the member with this text, or `None`.
///
/// # Errors
///
/// `NoMemory` if an allocation fails.
fn member_in(alloc: Global, text: &[u8]) -> Result<Option<ExplainedMember>, NoMemory>
    ensures sound { IfOk result (λ found. IfSome found (λ m.
        text.now ≡ stated_member_line (stated_member m))) }
    ensures small { IfOk result (λ found. IfSome found (λ m.
        AreSmall (member_numbers (stated_member m)))) }
    ensures complete { (m : StatedMember) → AreSmall (member_numbers m) →
        text.now ≡ stated_member_line m →
        IfOk result (λ found. option_map stated_member found ≡ Some m) }
{
    let Some((thread, lock, rest)) = holder_in(text) else {
        return Ok(None);
    };
    let (held, rest) = numbers_in(alloc, rest)?;
    let Some(place) = place_in(rest) else {
        return Ok(None);
    };
    Ok(Some(ExplainedMember {
        thread,
        lock,
        held,
        place,
    }))
}

/// Returns the places of the witness with this text, or `None`.
///
/// # Errors
///
/// `NoMemory` if an allocation fails.
fn places_in(alloc: Global, text: &[u8]) -> Result<Option<Vec<Place>>, NoMemory>
    ensures sound { IfOk result (λ found. IfSome found (λ order.
        text.now ≡ stated_witness_line order.items)) }
    ensures small { IfOk result (λ found. IfSome found (λ order. AreSmall order.items)) }
    ensures complete { (order : List ℕ) → AreSmall order → text.now ≡ stated_witness_line order →
        IfOk result (λ found. option_map (λ v. v.items) found ≡ Some order) }
{
    let Some(rest) = after(text, b"  witness") else {
        return Ok(None);
    };
    let (numbers, rest) = numbers_in(alloc, rest)?;
    if !rest.is_empty() {
        return Ok(None);
    }
    let places = numbers.iter().map(|number| Place::new(*number));
    Ok(Some(places.collect(alloc)?))
}

/// Returns whether the text is the word of a confirmed or of a potential cycle, or `None`.
fn verdict_in(text: &[u8]) -> Option<bool>
    ensures { MatchOption result ((confirmed : Bool) → text.now ≢ verdict_words confirmed)
        (λ confirmed. text.now ≡ verdict_words confirmed) }
{
    if is_literal(text, b" confirmed") {
        return Some(true);
    }
    if is_literal(text, b" potential") {
        return Some(false);
    }
    None
}

/// Returns the numbers of a cycle and whether it is confirmed, if the text is its line, or `None`.
///
/// # Errors
///
/// `NoMemory` if an allocation fails.
fn row_in(alloc: Global, text: &[u8]) -> Result<Option<(Cycle, bool)>, NoMemory>
    ensures sound { IfOk result (λ found. IfSome found (λ r. text.now ≡ cycle_line r.0 r.1)) }
    ensures small { IfOk result (λ found. IfSome found (λ r. AreSmall r.0)) }
    ensures sized { IfOk result (λ found. IfSome found (λ r.
        (2 ≤ length r.0) × (length r.0 ≤ 8))) }
    ensures complete { (cycle : List ℕ) (confirmed : Bool) → AreSmall cycle → 2 ≤ length cycle →
        length cycle ≤ 8 → text.now ≡ cycle_line cycle confirmed →
        IfOk result (λ found. found ≡ Some (cycle, confirmed)) }
{
    let Some(rest) = after(text, b"cycle") else {
        return Ok(None);
    };
    let (numbers, rest) = numbers_in(alloc, rest)?;
    let Some(is_confirmed) = verdict_in(rest) else {
        return Ok(None);
    };
    match Cycle::new(&numbers) {
        Some(cycle) => Ok(Some((cycle, is_confirmed))),
        None => Ok(None),
    }
}

/// Returns the line with this text, or `None`.
///
/// # Errors
///
/// `NoMemory` if an allocation fails.
pub(crate) fn line_in(alloc: Global, text: &[u8]) -> Result<Option<ExplainedLine>, NoMemory>
    ensures sound { IfOk result (λ found. IfSome found (λ l. IsTextOfLine text.now
        (stated_line l))) }
    ensures complete { (l : StatedLine) → IsTextOfLine text.now l →
        IfOk result (λ found. option_map stated_line found ≡ Some l) }
{
    if let Some(head) = head_in(text) {
        return Ok(Some(ExplainedLine::Head(head)));
    }
    if let Some((cycle, is_confirmed)) = row_in(alloc, text)? {
        return Ok(Some(ExplainedLine::Row(cycle, is_confirmed)));
    }
    if let Some(member) = member_in(alloc, text)? {
        return Ok(Some(ExplainedLine::Member(member)));
    }
    if let Some(places) = places_in(alloc, text)? {
        return Ok(Some(ExplainedLine::Places(places)));
    }
    if let Some((thread, place)) = conclusion_in(text) {
        return Ok(Some(ExplainedLine::Conclusion(thread, Place::new(place))));
    }
    match entry_in(text) {
        Some(entry) => Ok(Some(ExplainedLine::Entry(entry))),
        None => Ok(None),
    }
}
