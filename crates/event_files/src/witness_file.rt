//! Witness files: the places of an instance, and a list of places.
ghost use Rattle.std.specs.Prelude.{◌≡◌, ◌+◌, ℕ, List, true, false, IfErr, IfOk, MatchOption, codes, map};
ghost use Rattle.event_files.specs.EventFile.{pieces_at};
ghost use Rattle.event_files.specs.WitnessFile.{AreNumerals, IsKeyed, IsReach, AreWitnessLines, IsWitnessOf, IsWrongNext, ReadsOn, RefusesWitness, line_count, list_places, words_of_lines};

use crate::event_file::{lines_of, words_of};
use crate::numbered_text::is_literal;
use crate::numbers::parse_number;
use crate::refused::FileRefused;
use std::alloc::Global;
use trace_model::{Instance, NoMemory, Place};

/// The contents of a witness file: an instance, and the list of places that claims to reach it.
#[derive(Drop)]
pub struct WitnessFile {
    pub instance: Instance,
    pub order: Vec<Place>,
}

/// Returns the places that the words name, or `None` if a word is not a number.
fn places_of(alloc: Global, words: &[&[u8]]) -> Result<Option<Vec<Place>>, NoMemory>
    ensures { let shown = map (λ word. word.now) words.now in
        IfOk result (λ outcome. MatchOption outcome
        ((numbers : List ℕ) → AreNumerals numbers shown → ⊥)
        (λ places. AreNumerals places.items shown)) }
{
    let mut places = Vec::with_capacity(alloc, words.len())?;
    for word in words {
        let Some(index) = parse_number(word) else {
            return Ok(None);
        };
        places.push_reserved(Place::new(index));
    }
    Ok(Some(places))
}

/// Returns the places after the keyword, or `None` if the first word is not `keyword` or another
/// word is not a number.
fn places_after(
    alloc: Global,
    keyword: &[u8],
    words: &[&[u8]],
) -> Result<Option<Vec<Place>>, NoMemory>
    ensures { let shown = map (λ word. word.now) words.now in
        IfOk result (λ outcome. MatchOption outcome
        ((numbers : List ℕ) → IsKeyed keyword.now numbers shown → ⊥)
        (λ places. IsKeyed keyword.now places.items shown)) }
{
    let Some((first, rest)) = words.split_first() else {
        return Ok(None);
    };
    if !is_literal(first, keyword) {
        return Ok(None);
    }
    places_of(alloc, rest)
}

/// Returns the instance of a line `reach` with 2 to 8 numbers, or `None` for any other line.
fn reach(alloc: Global, words: &[&[u8]]) -> Result<Option<Instance>, NoMemory>
    ensures { let shown = map (λ word. word.now) words.now in
        IfOk result (λ outcome. MatchOption outcome
        ((instance : List ℕ) → IsReach instance shown → ⊥)
        (λ instance. IsReach instance shown)) }
{
    match places_after(alloc, b"reach", words)? {
        Some(places) => Ok(Instance::new(&places)),
        None => Ok(None),
    }
}

/// Reads the words of the next line into `instance` or `order`. Returns false if no witness file
/// has such a line there. A line without words is skipped.
fn read_words(
    alloc: Global,
    words: &[&[u8]],
    instance: &mut Option<Instance>,
    order: &mut Option<Vec<Place>>,
) -> Result<bool, NoMemory>
    ensures read { result ≡ Ok true → ReadsOn (map (λ word. word.now) words.now)
        (instance.old, list_places order.old) (instance.new, list_places order.new) }
    ensures wrong { result ≡ Ok false → IsWrongNext (map (λ word. word.now) words.now)
        (instance.old, list_places order.old) }
{
    if words.is_empty() {
        return Ok(true);
    }
    if instance.is_none() {
        *instance = reach(alloc, words)?;
        return Ok(instance.is_some());
    }
    if order.is_none() {
        *order = places_after(alloc, b"order", words)?;
        return Ok(order.is_some());
    }
    Ok(false)
}

/// Returns one more than the number of lines of a file that line feeds cut into these pieces. A
/// last piece without bytes is no line.
pub(crate) fn after_last(pieces: &[&[u8]]) -> usize
    ensures { result ≡ line_count (map (λ piece. piece.now) pieces.now) + 1 }
{
    let Some(last) = pieces.last() else {
        return 1;
    };
    if last.is_empty() {
        pieces.len()
    } else {
        pieces.len().saturating_add(1)
    }
}

/// Reads the witness in `lines`.
///
/// # Errors
///
/// - `Line` with the number of the first line that is not understood, counted from 1. If a line is
///   missing, this is one more than the number of lines.
/// - `NoMemory` if an allocation fails.
fn read_lines(alloc: Global, lines: &[&[u8]]) -> Result<WitnessFile, FileRefused>
    ensures witness { IfOk result (λ w.
        AreWitnessLines w.instance w.order.items (words_of_lines (map
        (λ line. line.now) lines.now))) }
    ensures refused { IfErr result (RefusesWitness (map (λ line. line.now) lines.now)) }
{
    let mut instance = None;
    let mut order = None;
    let mut number = 0usize;
    for line in lines {
        number = number.saturating_add(1);
        let words = words_of(alloc, line)?;
        if !read_words(alloc, &words, &mut instance, &mut order)? {
            return Err(FileRefused::Line(number));
        }
    }
    let Some(instance) = instance else {
        return Err(FileRefused::Line(after_last(lines)));
    };
    let Some(order) = order else {
        return Err(FileRefused::Line(after_last(lines)));
    };
    Ok(WitnessFile { instance, order })
}

/// Returns the contents of a witness file: a line `reach` with 2 to 8 numbers, then a line `order`
/// with any number of them. Empty lines and comments are skipped.
///
/// # Errors
///
/// - `Line` with the number of the first line that is not understood, counted from 1. If a line is
///   missing, this is one more than the number of lines.
/// - `NoMemory` if an allocation fails.
pub fn read_witness(alloc: Global, file: &[u8]) -> Result<WitnessFile, FileRefused>
    ensures witness { IfOk result (λ w. IsWitnessOf w.instance w.order.items file.now) }
    ensures refused { IfErr result (RefusesWitness (pieces_at 10 file.now)) }
{
    let lines = lines_of(alloc, file)?;
    read_lines(alloc, &lines)
}
