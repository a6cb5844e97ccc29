//! Runs cases of sessions: pieces of bytes, ends of sessions, and findings in one run.
use anyhow::{Context, Result, bail};
use event_files::{event, lines_of, parse_number, words_of};
use findings::{Finding, Snapshot};
use sequencer::{Book, Delivered, Input, Played, Session, play};
use std::alloc::Global;
use std::hash::RandomState;
use std::io::Write;
use std::str;
use std::sync::Arc;
use trace_model::{Bound, MAX_EVENTS, refusal_name};

/// Returns the session with this number, 0 to 63.
fn session_of(word: &[u8]) -> Result<Session> {
    let index = u8::try_from(parse_number(word).context("a number")?)?;
    Session::new(index).context("a session is 0 to 63")
}

/// Decodes bytes from pairs of hexadecimal digits.
fn bytes_of(alloc: Global, digits: &[u8]) -> Result<Vec<u8>> {
    let mut bytes = Vec::new(alloc);
    for pair in digits.chunks(2) {
        let text = str::from_utf8(pair).ok().context("hexadecimal digits")?;
        bytes.push(u8::from_str_radix(text, 16)?)?;
    }
    Ok(bytes)
}

/// Offers the event of a word to the book. Fails if the book refuses it.
fn offer_word(book: &mut Book, word: &[u8]) -> Result<()> {
    let event = event(word).context("an event")?;
    if book.offer(event).is_err() {
        bail!("an event of a finding is not lawful");
    }
    Ok(())
}

/// Offers the events of the words to the book, and asks a question with the bound 2 over them.
fn ask_over(book: &mut Book, words: &[&[u8]]) -> Result<()> {
    for word in words {
        offer_word(book, word)?;
    }
    book.ask(2)?;
    Ok(())
}

/// Returns a snapshot of the events of the words, which are added to the empty book.
fn share(book: &mut Book, words: &[&[u8]]) -> Result<Arc<Snapshot, Global>> {
    ask_over(book, words)?;
    book.snapshot(0).ok().context("a snapshot")
}

/// Returns a snapshot of these events from a new book.
fn snapshot_of(rt: &HostRuntime, words: &[&[u8]]) -> Result<Arc<Snapshot, Global>> {
    let state = RandomState::new(rt)?;
    let mut book = Book::new(rt.alloc(), state, MAX_EVENTS as u32)?;
    let shared = share(&mut book, words);
    // A large value is dropped by a call: a drop in place makes the proof long.
    drop(book);
    shared
}

/// Returns the finding with this question, bound and task, computed from these events.
fn finding_of(rt: &HostRuntime, key: [u32; 3], words: &[&[u8]]) -> Result<Finding> {
    let [question, bound, task] = key;
    let bound = Bound::new(u8::try_from(bound)?).context("a bound")?;
    let snapshot = snapshot_of(rt, words)?;
    let finding = findings::compute(rt.alloc(), snapshot, question, bound, task)?;
    Ok(finding)
}

/// Reads a piece: its session and its bytes.
fn piece_in(alloc: Global, words: &[&[u8]]) -> Result<Input> {
    let [session, bytes] = words else {
        bail!("a piece has a session and bytes");
    };
    Ok(Input::Piece(session_of(session)?, bytes_of(alloc, bytes)?))
}

/// Reads the end of a session.
fn end_in(words: &[&[u8]]) -> Result<Input> {
    let [session] = words else {
        bail!("an end has a session");
    };
    Ok(Input::End(session_of(session)?))
}

/// Reads a finding: its question, its bound, its task, and the events that it covers.
fn finding_in(rt: &HostRuntime, words: &[&[u8]]) -> Result<Input> {
    let [question, bound, task, events @ ..] = words else {
        bail!("a finding has a question, a bound and a task");
    };
    let mut key = [0u32; 3];
    key[0] = parse_number(question).context("a question")?;
    key[1] = parse_number(bound).context("a bound")?;
    key[2] = parse_number(task).context("a task")?;
    Ok(Input::Finding(finding_of(rt, key, events)?))
}

/// Reads the limit of the book.
fn limit_in(words: &[&[u8]]) -> Result<u32> {
    let [limit] = words else {
        bail!("a limit is one number");
    };
    parse_number(limit).context("a number")
}

/// Returns the input of a line that begins with this keyword.
fn input_of(rt: &HostRuntime, keyword: &[u8], rest: &[&[u8]]) -> Result<Input> {
    match str::from_utf8(keyword).ok() {
        Some("piece") => piece_in(rt.alloc(), rest),
        Some("end") => end_in(rest),
        Some("finding") => finding_in(rt, rest),
        _ => bail!("a line of a session is not understood"),
    }
}

/// Prints the bytes that were sent to a session, if any.
fn print_sent(text: &mut Vec<u8>, run: &Played, number: u8) -> Result<()> {
    let session = Session::new(number).context("a session is 0 to 63")?;
    let sent = run.sent(session);
    if sent.is_empty() {
        return Ok(());
    }
    write!(text, "{number} ")?;
    for byte in sent {
        write!(text, "{byte:02x}")?;
    }
    writeln!(text)?;
    Ok(())
}

/// Returns the limit of the book and the inputs of the lines of a file, in order.
fn inputs_of(rt: &HostRuntime, file: &[u8]) -> Result<(u32, Vec<Input>)> {
    let alloc = rt.alloc();
    let mut limit = MAX_EVENTS as u32;
    let mut inputs = Vec::new(alloc);
    for line in &lines_of(alloc, file)? {
        let words = words_of(alloc, line)?;
        match words.split_first() {
            None => {}
            Some((keyword, rest)) if *keyword == b"limit".as_slice() => limit = limit_in(rest)?,
            Some((keyword, rest)) => inputs.push(input_of(rt, keyword, rest)?)?,
        }
    }
    Ok((limit, inputs))
}

/// Prints the outcome of a finding.
fn print_outcome(text: &mut Vec<u8>, delivered: &Delivered) -> Result<()> {
    match delivered {
        Ok(()) => writeln!(text, "taken")?,
        Err((refusal, _)) => {
            let number = refusal.number();
            let name = refusal_name(number).context("a refusal without a name")?;
            writeln!(text, "refused {number} {name}")?;
        }
    }
    Ok(())
}

/// Prints the bytes that were sent to each session, one line for each, and then the outcome of each
/// finding.
fn print_run(text: &mut Vec<u8>, run: &Played) -> Result<()> {
    for number in 0..64u8 {
        print_sent(text, run, number)?;
    }
    for delivered in run.deliveries() {
        print_outcome(text, delivered)?;
    }
    Ok(())
}

/// Runs the inputs of a file, one per line: `piece S BYTES`, `end S`, or `finding Q K J EVENTS`,
/// with a session S, a question Q, a bound K and a task J. A line `limit L` gives the book another
/// limit than the greatest one. Returns the text with the bytes sent to each session and the
/// outcomes of the findings.
pub(crate) fn run_sessions(rt: &HostRuntime, file: &[u8]) -> Result<Vec<u8>> {
    let alloc = rt.alloc();
    let state = RandomState::new(rt)?;
    let (limit, inputs) = inputs_of(rt, file)?;
    let run = play(alloc, state, limit, inputs)?;
    let mut text = Vec::new(alloc);
    let printed = print_run(&mut text, &run);
    drop(run);
    printed.and(Ok(text))
}
