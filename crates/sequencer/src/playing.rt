//! Runs of up to 64 sessions, with findings, over one book.
ghost use Rattle.std.specs.Prelude.{◌≡◌, ◌++◌, ◌∷◌, [], ◌<◌, ℕ, List, None, Some, OnOk, IfOk, IfErr, length, slice_get};
ghost use Rattle.std.specs.Global.{Vec};
ghost use Rattle.trace_model.specs.Protocol.Bounds.{StateFits};
ghost use Rattle.trace_model.specs.Protocol.Machine.{State, opening};
ghost use Rattle.trace_model.specs.Theory.Rows.{AreRows};
ghost use Rattle.trace_model.specs.Protocol.Replies.{IsReply, reply_frame};
ghost use Rattle.sequencer.specs.Book.{IsBookLimit};
ghost use Rattle.sequencer.specs.Called.{lacks_memory};
ghost use Rattle.sequencer.specs.Drains.{Drains, IsAnswered, AreNew, IsPlayed};
ghost use Rattle.sequencer.specs.Exact.{IsAlwaysExact, AlwaysTellsDeadlocks};
ghost use Rattle.sequencer.specs.Sessions.{actions, final_state, deliveries_of};
ghost use Rattle.sequencer.specs.Played.{AreSent, IsRightlyRefused};
ghost use Rattle.sequencer.specs.declared.input.Input.{Input};
ghost use Rattle.sequencer.specs.declared.input.Input.TheVariants.{Piece, End};

use crate::book::Book;
use crate::delivering::Delivered;
use crate::input::{Input, MAX_PLAYED, Session};
use event_frames::{FrameReader, push_reply};
use std::alloc::{AllocError, Global};
use std::hash::RandomState;
use std::marker::Model;
use thiserror::Error;
use trace_model::{NoMemory, Refusal, Reply};

/// Why a run was not played.
#[derive(Debug, Drop, PartialEq, Eq, Error)]
pub enum PlayRefused {
    #[error("the limit is not 1 to 1048576")]
    BadLimit,
    #[error("no memory")]
    NoMemory,
}

/// A session of a run: its frame reader, and the bytes that it was sent.
#[derive(Drop)]
pub struct PlayedSession {
    pub reader: FrameReader,
    pub sent: Vec<u8>,
}

impl PlayedSession {
    /// Reads a piece of the session's bytes. A closed session ignores it.
    fn take_piece(&mut self, book: &mut Book, piece: &[u8]) -> Result<(), NoMemory>
        ensures { OnOk result ((s : ℕ) (start : State) (past : List Input) (bytes : Vec ℕ) →
            bytes.items ≡ piece.now
            → IsAnswered s start past book.old.state self.old
            → IsAnswered s start (past ++ Piece s bytes ∷ []) book.new.state self.new) }
    {
        if self.reader.is_closed() {
            return Ok(());
        }
        self.reader.feed(piece)?;
        drain(book, &mut self.reader, &mut self.sent)
    }

    /// Ends the session. A closed session ignores it.
    fn take_end(&mut self, book: &mut Book) -> Result<(), NoMemory>
        ensures { OnOk result ((s : ℕ) (start : State) (past : List Input)
            → IsAnswered s start past book.old.state self.old
            → IsAnswered s start (past ++ End s ∷ []) book.new.state self.new) }
    {
        if self.reader.is_closed() {
            return Ok(());
        }
        self.reader.finish();
        drain(book, &mut self.reader, &mut self.sent)
    }
}

/// Returns whether the reply reports a failed allocation.
fn lacks_memory(reply: &Reply) -> bool
    ensures { result ≡ lacks_memory reply.now }
{
    match reply {
        Reply::Refused(Refusal::NoMemory) => true,
        Reply::Batched {
            refusal: Some(Refusal::NoMemory),
            ..
        } => true,
        _ => false,
    }
}

/// Appends a reply to the bytes that a session was sent.
fn send(sent: &mut Vec<u8>, reply: Reply) -> Result<(), NoMemory>
    requires { IsReply reply }
    ensures { OnOk result (sent.new.items ≡ sent.old.items ++ reply_frame reply) }
{
    push_reply(sent, &reply)
}

/// Answers each whole request of the reader and sends the replies; then sends the fault, if there
/// is one.
fn drain(book: &mut Book, reader: &mut FrameReader, sent: &mut Vec<u8>) -> Result<(), NoMemory>
    requires { reader.old.returned ≡ None }
    ensures { OnOk result
        (Drains book.old.state reader.old sent.old.items book.new.state reader.new sent.new.items) }
{
    loop {
        match reader.next() {
            Ok(Some(request)) => {
                let reply = book.call(&request);
                if lacks_memory(&reply) {
                    return Err(NoMemory::from(AllocError));
                }
                send(sent, reply)?;
            }
            Ok(None) => return Ok(()),
            Err(fault) => {
                return send(sent, Reply::Fault(fault));
            }
        }
    }
}

/// The sessions, the outcomes of the findings, and the book of a run.
#[derive(Drop)]
pub struct Run {
    pub sessions: Vec<PlayedSession>,
    pub deliveries: Vec<Delivered>,
    pub book: Book,
}

impl Run {
    /// Creates a run without inputs.
    fn new(alloc: Global, sessions: Vec<PlayedSession>, book: Book) -> Run
        ensures sessions { result.sessions ≡ sessions }
        ensures deliveries { result.deliveries.items ≡ [] }
        ensures book { result.book ≡ book }
    {
        Run {
            sessions,
            deliveries: Vec::new(alloc),
            book,
        }
    }

    /// Takes one more input.
    fn take(&mut self, input: Input) -> Result<(), NoMemory>
        requires { length self.old.sessions.items ≡ 64 }
        ensures { OnOk result ((start : State) (past : List Input) → IsPlayed start past self.old →
            IsPlayed start (past ++ input ∷ []) self.new) }
    {
        match input {
            Input::Piece(session, bytes) => {
                let state = &mut self.sessions[session.index()];
                state.take_piece(&mut self.book, &bytes)
            }
            Input::End(session) => {
                let state = &mut self.sessions[session.index()];
                state.take_end(&mut self.book)
            }
            Input::Finding(finding) => {
                let delivered = self.book.deliver(finding);
                self.deliveries.push(delivered)?;
                Ok(())
            }
        }
    }
}

/// The result of a run: the bytes that each session was sent, the outcome of each finding, and the
/// book.
#[derive(Drop)]
pub struct Played {
    run: Run,
}

impl Model for Played {
    ghost use Rattle.std.specs.Prelude.{◌≡◌, length, map};
    ghost use Rattle.sequencer.specs.Played.{PlayOutcome};

    ghost Value = { PlayOutcome };

    ghost view = { λ p. record {
      sent = map (λ session. session.sent.items) p.run.sessions.items;
      deliveries = p.run.deliveries.items;
      book = p.run.book;
    } };

    ghost invariant = { λ p. length p.run.sessions.items ≡ 64 };
}

impl Played {
    /// Returns the bytes that a session was sent.
    pub fn sent(&self, session: Session) -> &[u8]
        ensures { slice_get self.now.sent session ≡ Some result.now }
    {
        self.run.sessions[session.index()].sent.as_slice()
    }

    /// Returns the outcome of each finding, in the order of the inputs.
    pub fn deliveries(&self) -> &[Delivered]
        ensures { result.now ≡ self.now.deliveries }
    {
        self.run.deliveries.as_slice()
    }

    /// Returns the book after all inputs.
    pub fn book(&self) -> &Book
        ensures { result.now ≡ self.now.book }
    {
        &self.run.book
    }
}

fn open_sessions(alloc: Global) -> Result<Vec<PlayedSession>, NoMemory>
    ensures { IfOk result (λ sessions. (length sessions.items ≡ 64) × AreNew sessions.items) }
{
    let mut sessions = Vec::new(alloc);
    for _ in 0..MAX_PLAYED {
        sessions.push(PlayedSession {
            reader: FrameReader::new(alloc),
            sent: Vec::new(alloc),
        })?;
    }
    Ok(sessions)
}

/// Takes the inputs in order.
fn take_all(run: &mut Run, inputs: Vec<Input>) -> Result<(), NoMemory>
    requires { (start : State) × (past : List Input) × IsPlayed start past run.old }
    ensures { OnOk result ((start : State) (past : List Input) → IsPlayed start past run.old →
        IsPlayed start (past ++ inputs.items) run.new) }
{
    for input in inputs {
        run.take(input)?;
    }
    Ok(())
}

/// Plays the inputs over a book.
fn play_over(alloc: Global, book: Book, inputs: Vec<Input>) -> Result<Played, NoMemory>
    ensures sent { IfOk result (λ played. AreSent played.sent book.state inputs.items) }
    ensures deliveries { IfOk result
        (λ played. played.deliveries ≡ deliveries_of book.state inputs.items) }
    ensures book { IfOk result (λ played. played.book.state ≡ final_state book.state inputs.items) }
    ensures exact { IfOk result (λ _. StateFits AreRows book.state →
        IsAlwaysExact book.state (actions inputs.items)) }
{
    let sessions = match open_sessions(alloc) {
        Ok(sessions) => sessions,
        Err(refused) => {
            drop(book);
            drop(inputs);
            return Err(refused);
        }
    };
    let mut run = Run::new(alloc, sessions, book);
    if let Err(refused) = take_all(&mut run, inputs) {
        drop(run);
        return Err(refused);
    }
    Ok(Played { run })
}

/// Plays the inputs over a new book that accepts at most `max_events` events. Each session is sent
/// the replies to its requests in order, and then its fault if it has one. Findings are delivered
/// in between, in the order of the inputs. Inputs for a session after its fault or end are ignored.
/// Part of the public API; not called by the program.
///
/// # Errors
///
/// `BadLimit` if `max_events` is not 1 to `MAX_EVENTS`; `NoMemory` if an allocation fails.
pub fn play(
    alloc: Global,
    state: RandomState,
    max_events: u32,
    inputs: Vec<Input>,
) -> Result<Played, PlayRefused>
    ensures sent { IfOk result (λ played. AreSent played.sent (opening max_events) inputs.items) }
    ensures deliveries { IfOk result
        (λ played. played.deliveries ≡ deliveries_of (opening max_events) inputs.items) }
    ensures book { IfOk result
        (λ played. played.book.state ≡ final_state (opening max_events) inputs.items) }
    // At any time, the rows of each delivered task are exactly those of its question's events.
    ensures exact { IfOk result (λ _. IsAlwaysExact (opening max_events) (actions inputs.items)) }
    // At any time, each confirmed row of a report has a witness that leads into its deadlock.
    ensures deadlocks { IfOk result
        (λ _. AlwaysTellsDeadlocks (opening max_events) (actions inputs.items)) }
    ensures limit { IfOk result (λ _. IsBookLimit max_events) }
    ensures refused { IfErr result (IsRightlyRefused max_events) }
{
    let Ok(book) = Book::new(alloc, state, max_events) else {
        return Err(PlayRefused::BadLimit);
    };
    match play_over(alloc, book, inputs) {
        Ok(played) => Ok(played),
        Err(_) => Err(PlayRefused::NoMemory),
    }
}
