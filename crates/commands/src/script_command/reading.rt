//! Parses script files.
ghost use Rattle.std.specs.Prelude.{◌≡◌, ◌∷◌, ◌++◌, [], true, false, IfErr, IfNone, IfOk, IfSome, Ok, codes, decimal, map};
ghost use Rattle.event_files.specs.EventFile.{HasBadWord, line_words, pieces_at};
ghost use Rattle.commands.specs.ScriptFile.{AddsLine, IsNotUnderstood, IsScriptOf, RefusesCommands, Says, SaysLines, SaysOnlyEvents};

use crate::exit::CommandError;
use event_files::{event, lines_of, parse_number, push_events, words_of};
use std::alloc::Global;
use std::str;
use trace_model::{Event, EventBatch, NoMemory};

/// One step of a script.
#[derive(Drop)]
pub enum Command {
    /// Offer an event.
    Offer(Event),
    /// Offer these events as one batch.
    Batch(Box<EventBatch>),
    /// Open a question with this bound.
    Ask(u8),
    /// Compute and deliver all missing tasks of the question.
    Work(u32),
    /// Compute and deliver one task of a question.
    Deliver { question: u32, task: u32 },
    /// Answer the question.
    Answer(u32),
    /// Print the status of the question.
    Status(u32),
}

/// Parses a keyword and its number.
fn command_about(keyword: &[u8], number: u32) -> Option<Command>
    ensures some { IfSome result (Says (keyword.now ∷ decimal number ∷ [])) }
    ensures none { IfNone result (SaysOnlyEvents (keyword.now ∷ decimal number ∷ [])) }
{
    match str::from_utf8(keyword).ok()? {
        "ask" => Some(Command::Ask(u8::try_from(number).ok()?)),
        "work" => Some(Command::Work(number)),
        "answer" => Some(Command::Answer(number)),
        "status" => Some(Command::Status(number)),
        _ => None,
    }
}

/// Parses a keyword and its two numbers.
fn delivery(keyword: &[u8], question: &[u8], task: &[u8]) -> Option<Command>
    ensures some { IfSome result (Says (keyword.now ∷ question.now ∷ task.now ∷ [])) }
    ensures none { IfNone result (SaysOnlyEvents (keyword.now ∷ question.now ∷ task.now ∷ [])) }
{
    match str::from_utf8(keyword).ok()? {
        "deliver" => Some(Command::Deliver {
            question: parse_number(question)?,
            task: parse_number(task)?,
        }),
        _ => None,
    }
}

/// Parses a line that is neither an event line nor a batch.
fn parse_command(words: &[&[u8]]) -> Option<Command>
    ensures some { IfSome result (Says (map (λ word. word.now) words.now)) }
    ensures none { IfNone result (SaysOnlyEvents (map (λ word. word.now) words.now)) }
{
    match words {
        [keyword, about] => command_about(keyword, parse_number(about)?),
        [keyword, question, task] => delivery(keyword, question, task),
        _ => None,
    }
}

/// Appends a batch of the events that the words name. Returns whether these are 1 to `MAX_BATCH`
/// event words.
fn push_batch(alloc: Global, commands: &mut Vec<Command>, words: &[&[u8]]) -> Result<bool, NoMemory>
    ensures added { result ≡ Ok true → AddsLine commands.old.items
        (codes "batch" ∷ map (λ word. word.now) words.now) commands.new.items }
    ensures wrong { result ≡ Ok false →
        IsNotUnderstood (codes "batch" ∷ map (λ word. word.now) words.now) }
{
    let mut events = Vec::new(alloc);
    if !push_events(&mut events, words)? {
        return Ok(false);
    }
    let Some(batch) = EventBatch::new(&events) else {
        return Ok(false);
    };
    commands.push(Command::Batch(Box::new(alloc, batch)?))?;
    Ok(true)
}

/// Appends offers of the events that the words name. Returns whether these are event words.
fn push_offers(commands: &mut Vec<Command>, words: &[&[u8]]) -> Result<bool, NoMemory>
    ensures added { result ≡ Ok true →
        AddsLine commands.old.items (map (λ word. word.now) words.now) commands.new.items }
    ensures bad { result ≡ Ok false → HasBadWord (map (λ word. word.now) words.now) }
{
    for word in words {
        let Some(event) = event(word) else {
            return Ok(false);
        };
        commands.push(Command::Offer(event))?;
    }
    Ok(true)
}

/// Appends the commands of a line. Returns whether the line is understood.
fn push_commands(
    alloc: Global,
    commands: &mut Vec<Command>,
    words: &[&[u8]],
) -> Result<bool, NoMemory>
    ensures added { result ≡ Ok true →
        AddsLine commands.old.items (map (λ word. word.now) words.now) commands.new.items }
    ensures wrong { result ≡ Ok false → IsNotUnderstood (map (λ word. word.now) words.now) }
{
    if let Some((keyword, events)) = words.split_first() {
        if *keyword == b"batch".as_slice() {
            return push_batch(alloc, commands, events);
        }
    }
    if let Some(command) = parse_command(words) {
        commands.push(command)?;
        return Ok(true);
    }
    push_offers(commands, words)
}

/// Appends the commands of a line of the file. Returns whether the line is understood.
fn push_line(alloc: Global, commands: &mut Vec<Command>, line: &[u8]) -> Result<bool, NoMemory>
    ensures added { result ≡ Ok true →
        AddsLine commands.old.items (line_words line.now) commands.new.items }
    ensures wrong { result ≡ Ok false → IsNotUnderstood (line_words line.now) }
{
    let words = words_of(alloc, line)?;
    push_commands(alloc, commands, &words)
}

/// Returns the commands of `lines`, in order.
///
/// # Errors
///
/// - `Line` with the first line that is not understood, counted from 1.
/// - `Memory` if an allocation fails.
fn commands_of(alloc: Global, lines: &[&[u8]]) -> Result<Vec<Command>, CommandError>
    ensures commands { IfOk result (λ commands.
        SaysLines (map (λ line. line.now) lines.now) commands.items) }
    ensures refused { IfErr result (RefusesCommands (map (λ line. line.now) lines.now)) }
{
    let mut commands = Vec::new(alloc);
    let mut number = 0usize;
    for line in lines {
        number = number.saturating_add(1);
        if !push_line(alloc, &mut commands, line)? {
            return Err(CommandError::Line(number));
        }
    }
    Ok(commands)
}

/// Parses a script into its commands, in order.
///
/// # Errors
///
/// - `Line` with the first line that is not understood, counted from 1.
/// - `Memory` if an allocation fails.
pub fn read_script(alloc: Global, file: &[u8]) -> Result<Vec<Command>, CommandError>
    ensures commands { IfOk result (λ commands. IsScriptOf commands.items file.now) }
    ensures refused { IfErr result (RefusesCommands (pieces_at 10 file.now)) }
{
    let lines = lines_of(alloc, file)?;
    commands_of(alloc, &lines)
}
