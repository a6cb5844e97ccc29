//! Event files: lines of event words.
ghost use Rattle.std.specs.Prelude.{◌≡◌, ◌<◌, ◌^◌, ◌∷◌, ◌++◌, ◌≢◌, ◌==◌, [], ℕ, true, false, IfErr, IfOk, IfSome, IsSomeAnd, List, MatchOption, Ok, OnOk, Some, decimal, length, map, replicate, slice_get, get_or};
ghost use Rattle.std.specs.List.{All, filter, position};
ghost use Rattle.trace_model.specs.Protocol.Frames.{FitsWords, IsRequest, object_of};
ghost use Rattle.trace_model.specs.declared.traces.event.Event.{Event};
ghost use Rattle.trace_model.specs.declared.traces.event.Op.{Op};
ghost use Rattle.trace_model.specs.declared.messages.session.Request.TheVariants.{Offer};
ghost use Rattle.event_files.specs.EventFile.{is_word, letter_of, event_word, pieces_at, is_comment, AreFirstEventsOf, HasBadWord, KeepsFirstWord, KeepsLine, KeepsWords, RefusesFirstWord, RefusesLine, RefusesLines, ends_word, line_words, spaced_words};
ghost use Rattle.event_files.specs.NumberedText.{is_after_number};
ghost use Rattle.event_files.specs.WitnessFile.{has_words};

use crate::numbered_text::number_in;
use crate::refused::FileRefused;
use std::alloc::{AllocError, Global};
use trace_model::{Event, MAX_EVENTS, NoMemory, Op};

/// Returns the operation with this letter and object, or `None` if no operation has the letter.
fn op_of(letter: u8, object: u32) -> Option<Op>
    ensures sound { IfSome result (λ op. (letter ≡ letter_of op) × (object_of op ≡ object)) }
    ensures complete { (op : Op) → letter ≡ letter_of op → object_of op ≡ object →
        result ≡ Some op }
{
    match letter {
        b'f' => Some(Op::Fork(object)),
        b'j' => Some(Op::Join(object)),
        b'a' => Some(Op::Acquire(object)),
        b'r' => Some(Op::Release(object)),
        b'd' => Some(Op::Read(object)),
        b'w' => Some(Op::Write(object)),
        _ => None,
    }
}

/// Returns the event whose word begins the text, and the text after the word, or `None` if no word
/// of an event does.
#[inline(always)]
fn event_in(text: &[u8]) -> Option<(Event, &[u8])>
    ensures sound { IfSome result (λ found. text.now ≡ event_word found.0 ++ found.1.now) }
    ensures fits { IfSome result (λ found. FitsWords found.0) }
    ensures complete { (e : Event) (rest : List ℕ) → IsRequest (Offer e) →
        is_after_number rest ≡ true → text.now ≡ event_word e ++ rest →
        IsSomeAnd result (λ found. (found.0 ≡ e) × (found.1.now ≡ rest)) }
{
    let (thread, after) = number_in(text)?;
    let [letter, digits @ ..] = after else {
        return None;
    };
    let (object, rest) = number_in(digits)?;
    let op = op_of(*letter, object)?;
    Some((Event { thread, op }, rest))
}

/// Returns the event that `word` denotes, or `None`. A word is the thread, the letter of the
/// operation, and the object: `1a10` is an acquire of lock 10 by thread 1.
pub fn event(word: &[u8]) -> Option<Event>
    ensures sound { IfSome result (λ e. word.now ≡ event_word e) }
    ensures fits { IfSome result FitsWords }
    ensures complete { (e : Event) → IsRequest (Offer e) → word.now ≡ event_word e →
        result ≡ Some e }
{
    let (event, rest) = event_in(word)?;
    if rest.is_empty() { Some(event) } else { None }
}

/// Returns the pieces of `bytes` between the bytes equal to `mark`.
fn pieces_at<'a>(alloc: Global, bytes: &'a [u8], mark: u8) -> Result<Vec<&'a [u8]>, AllocError>
    ensures { IfOk result (λ pieces. map (λ piece. piece.now) pieces.items ≡
        pieces_at mark bytes.now) }
{
    bytes.split(|byte| *byte == mark).collect(alloc)
}

/// Returns the lines of a file, which line feeds separate.
///
/// # Errors
///
/// `NoMemory` if an allocation fails.
pub fn lines_of(alloc: Global, file: &[u8]) -> Result<Vec<&[u8]>, NoMemory>
    ensures { IfOk result (λ lines. map (λ line. line.now) lines.items ≡ pieces_at 10 file.now) }
{
    Ok(pieces_at(alloc, file, b'\n')?)
}

/// Returns the pieces of a line between its spaces, without empty pieces.
fn spaced<'a>(alloc: Global, line: &'a [u8]) -> Result<Vec<&'a [u8]>, AllocError>
    ensures { IfOk result (λ words. map (λ word. word.now) words.items ≡
        filter is_word (pieces_at 32 line.now)) }
{
    line.split(|byte| *byte == b' ')
        .filter(|piece| !piece.is_empty())
        .collect(alloc)
}

/// Returns whether a line with this first word is a comment: the word begins with `#`.
fn is_comment(word: &[u8]) -> bool
    ensures { result ≡ is_comment word.now }
{
    match word {
        [byte, ..] => *byte == b'#',
        [] => false,
    }
}

/// Returns the words of a line, which spaces separate. A comment has no words.
///
/// # Errors
///
/// `NoMemory` if an allocation fails.
pub fn words_of(alloc: Global, line: &[u8]) -> Result<Vec<&[u8]>, NoMemory>
    ensures { IfOk result (λ words. map (λ word. word.now) words.items ≡ line_words line.now) }
{
    let words = spaced(alloc, line)?;
    match words.first() {
        Some(first) if is_comment(first) => Ok(Vec::new(alloc)),
        _ => Ok(words),
    }
}

/// Adds the events of `words` at the end of `events`. Returns false if some word is not an event
/// word.
///
/// # Errors
///
/// `NoMemory` if an allocation fails. Some of the events may have been added.
pub fn push_events(events: &mut Vec<Event>, words: &[&[u8]]) -> Result<bool, NoMemory>
    ensures added { result ≡ Ok true →
        map event_word events.new.items ≡ map event_word events.old.items ++
        map (λ word. word.now) words.now }
    ensures fits { result ≡ Ok true → All FitsWords events.old.items →
        All FitsWords events.new.items }
    ensures bad { result ≡ Ok false → HasBadWord (map (λ word. word.now) words.now) }
{
    for word in words {
        let Some(event) = event(word) else {
            return Ok(false);
        };
        events.push(event)?;
    }
    Ok(true)
}

/// The greatest number of events that are kept of a file: those of the longest trace, and the next
/// one, which the admission check refuses.
const MAX_KEPT: usize = MAX_EVENTS + 1;

/// Returns whether the line has words and is no comment.
pub(crate) fn has_words(line: &[u8]) -> bool
    ensures { result ≡ has_words (line_words line.now) }
{
    for byte in line {
        if *byte != b' ' {
            return *byte != b'#';
        }
    }
    false
}

/// Returns the text after its first byte.
#[inline(always)]
fn after_byte(text: &[u8]) -> &[u8]
    requires { 0 < length text.now }
    ensures { text.now ≡ get_or text.now 0 0 ∷ result.now }
{
    &text[1..]
}

/// Returns the text after the spaces at its beginning.
fn after_spaces(text: &[u8]) -> &[u8]
    ensures spaces { (count : ℕ) × (text.now ≡ replicate count 32 ++ result.now) }
    ensures other { slice_get result.now 0 ≢ Some 32 }
{
    let mut count = 0;
    while count < text.len() && text[count] == b' ' {
        count += 1;
    }
    &text[count..]
}

/// Returns the index of the first line feed, or `None`.
fn line_end(text: &[u8]) -> Option<usize>
    ensures { result ≡ position (λ byte. byte == 10) text.now }
{
    text.iter().position(|byte| *byte == b'\n')
}

/// Returns the lines after the first one, or `None` if it is the last.
fn later_lines(text: &[u8]) -> Option<&[u8]>
    ensures { (line : List ℕ) × MatchOption result (pieces_at 10 text.now ≡ line ∷ [])
        (λ rest. pieces_at 10 text.now ≡ line ∷ pieces_at 10 rest.now) }
{
    let place = line_end(text)?;
    Some(&text[place + 1..])
}

/// Splits a text at the first line feed that has at least `least` bytes before it. Returns the
/// lines before the line feed, and those after it, or `None` if there is no such line feed.
pub fn split_lines(text: &[u8], least: usize) -> (&[u8], Option<&[u8]>)
    ensures lines { MatchOption result.1 (result.0.now ≡ text.now)
        (λ rest. pieces_at 10 text.now ≡ pieces_at 10 result.0.now ++ pieces_at 10 rest.now) }
    ensures shorter { IfSome result.1 (λ rest. length rest.now < length text.now) }
{
    for end in least..text.len() {
        if text[end] == b'\n' {
            return (&text[..end], Some(&text[end + 1..]));
        }
    }
    (text, None)
}

/// Returns the number of lines of a text: one more than it has line feeds.
pub fn line_count(text: &[u8]) -> usize
    ensures { result ≡ length (pieces_at 10 text.now) }
{
    text.split(|byte| *byte == b'\n').count()
}

/// Returns whether a word can end before the text: at the end of the file or of a line, or before a
/// space.
#[inline(always)]
fn ends_word(text: &[u8]) -> bool
    ensures { result ≡ ends_word text.now }
{
    match text {
        [] => true,
        [byte, ..] => *byte == b' ' || *byte == b'\n',
    }
}

/// Adds an event at the end of `kept`, if there is room.
///
/// # Errors
///
/// `NoMemory` if an allocation fails.
#[inline(always)]
fn keep_event(kept: &mut Vec<Event>, event: Event) -> Result<(), NoMemory>
    ensures { OnOk result (KeepsWords kept.old.items (event_word event ∷ []) kept.new.items) }
{
    if kept.len() < MAX_KEPT {
        kept.push(event)?;
    }
    Ok(())
}

/// Adds the event of the first word at the end of `kept`, if there is room, and returns the text
/// after the word.
///
/// # Errors
///
/// - `Line` with this number if the word is not an event word.
/// - `NoMemory` if an allocation fails.
#[inline(always)]
fn keep_word<'a>(
    kept: &mut Vec<Event>,
    text: &'a [u8],
    number: usize,
) -> Result<&'a [u8], FileRefused>
    ensures kept { IfOk result
        (λ rest. KeepsFirstWord kept.old.items text.now kept.new.items rest.now) }
    ensures refused { IfErr result (RefusesFirstWord text.now number) }
{
    let Some((event, rest)) = event_in(text) else {
        return Err(FileRefused::Line(number));
    };
    if !ends_word(rest) {
        return Err(FileRefused::Line(number));
    }
    keep_event(kept, event)?;
    Ok(rest)
}

/// Adds the events of the words of the first line at the end of `kept`, as long as there is room.
/// Returns the lines after it, or `None` if it is the last.
///
/// # Errors
///
/// - `Line` with this number if some word is not an event word.
/// - `NoMemory` if an allocation fails. Some of the events may have been added.
#[inline(always)]
fn keep_words<'a>(
    kept: &mut Vec<Event>,
    text: &'a [u8],
    number: usize,
) -> Result<Option<&'a [u8]>, FileRefused>
    ensures kept { IfOk result (λ later. MatchOption later
        (KeepsLine spaced_words kept.old.items text.now kept.new.items [])
        (λ rest. KeepsLine spaced_words kept.old.items text.now kept.new.items
        (pieces_at 10 rest.now))) }
    ensures refused { IfErr result (RefusesLine spaced_words text.now number) }
{
    let mut rest = text;
    loop {
        if rest.is_empty() {
            return Ok(None);
        }
        if rest[0] == b'\n' {
            return Ok(Some(after_byte(rest)));
        }
        if rest[0] == b' ' {
            rest = after_byte(rest);
        } else {
            rest = keep_word(kept, rest, number)?;
        }
    }
}

/// Adds the events of the first line at the end of `kept`, as long as there is room. Returns the
/// lines after it, or `None` if it is the last.
///
/// # Errors
///
/// - `Line` with this number if the line is not understood.
/// - `NoMemory` if an allocation fails. Some of the events may have been added.
#[inline(always)]
fn keep_line<'a>(
    kept: &mut Vec<Event>,
    text: &'a [u8],
    number: usize,
) -> Result<Option<&'a [u8]>, FileRefused>
    ensures kept { IfOk result (λ later. MatchOption later
        (KeepsLine line_words kept.old.items text.now kept.new.items [])
        (λ rest. KeepsLine line_words kept.old.items text.now kept.new.items
        (pieces_at 10 rest.now))) }
    ensures refused { IfErr result (RefusesLine line_words text.now number) }
{
    let rest = after_spaces(text);
    if is_comment(rest) {
        Ok(later_lines(rest))
    } else {
        keep_words(kept, rest, number)
    }
}

/// Returns an empty list with room for the events of a file. A word and the byte after it take at
/// least four bytes.
///
/// # Errors
///
/// `NoMemory` if the allocation fails.
fn with_room(alloc: Global, file: &[u8]) -> Result<Vec<Event>, NoMemory>
    ensures { IfOk result (λ kept. kept.items ≡ []) }
{
    let words = file.len() / 4 + 1;
    Ok(Vec::with_capacity(alloc, words.min(MAX_KEPT))?)
}

/// Returns the events of a file, in order, but at most one more than a trace has. Each word of the
/// file is read, and no line or word is kept.
///
/// # Errors
///
/// - `Line` with the number of the first line that is not understood, counted from 1.
/// - `NoMemory` if an allocation fails.
pub fn read_events(alloc: Global, file: &[u8]) -> Result<Vec<Event>, FileRefused>
    ensures events { IfOk result (λ events. AreFirstEventsOf events.items file.now) }
    ensures refused { IfErr result (RefusesLines (pieces_at 10 file.now)) }
{
    let mut kept = with_room(alloc, file)?;
    let mut number = 1usize;
    let mut rest = file;
    while let Some(more) = keep_line(&mut kept, rest, number)? {
        number = number.saturating_add(1);
        rest = more;
    }
    Ok(kept)
}
