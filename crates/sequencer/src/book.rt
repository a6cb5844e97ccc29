//! The book and its events.

ghost use Rattle.std.specs.Prelude.{◌≡◌, ◌<◌, ◌≤◌, ◌↔◌, length, take, nat_eq, slice_get, option_map, IfSome, IfErr, IfOk, IsOk, MatchOption, OnOk, Some, None};
ghost use Rattle.trace_model.specs.Theory.Dependencies.{dependencies};
ghost use Rattle.trace_model.specs.Theory.Lawful.{refusal_of};
ghost use Rattle.trace_model.specs.Theory.Rows.{AreRows};
ghost use Rattle.trace_model.specs.Protocol.Machine.{ask_refused, opening, step, with_event, with_question};
ghost use Rattle.trace_model.specs.Protocol.Bounds.{StateFits};
ghost use Rattle.trace_model.specs.declared.messages.session.Request.TheVariants.{Offer};
ghost use Rattle.trace_model.specs.declared.messages.session.Reply.TheVariants.{Placed};
ghost use Rattle.sequencer.specs.declared.book.BookRefused.TheVariants.{BadLimit};
ghost use Rattle.sequencer.specs.QuestionState.{question_of, HasNamedRows};
ghost use Rattle.sequencer.specs.Book.{IsBookLimit, RefusesOffer, fresh};
ghost use Rattle.sequencer.specs.Printing.{report_printer};

use crate::question_state::QuestionState;
use crate::recorder::Recorder;
use std::alloc::Global;
use std::hash::RandomState;
use std::marker::Model;
use thiserror::Error;
use trace_model::{Event, MAX_EVENTS, Place, Refusal};

/// Why a book cannot be created.
#[derive(Debug, Drop, PartialEq, Eq, Error)]
pub enum BookRefused {
    #[error("the limit is not 1 to 1048576")]
    BadLimit,
    #[error("no memory")]
    NoMemory,
}

/// No question has this number.
#[derive(Clone, Copy, Debug, PartialEq, Eq, Error)]
#[error("no such question")]
pub struct NoSuchQuestion;

/// The accepted events, and the questions about prefixes of them with the rows of their tasks.
/// Contracts see the machine's state, and what memory is reserved.
pub struct Book {
    pub(crate) alloc: Global,
    pub(crate) limit: u32,
    pub(crate) recorder: Recorder,
    pub(crate) questions: Vec<QuestionState>,
}

impl Drop for Book {
    fn drop(self) {
        let Book {
            alloc: _,
            limit: _,
            recorder: _,
            questions: _,
        } = self;
    }
}

impl Model for Book {
    ghost use Rattle.std.specs.Prelude.{◌-◌, vec_len, vec_capacity};
    ghost use Rattle.sequencer.specs.Book.{BookView, IsBook, book_state};

    ghost Value = { BookView };

    ghost view = { λ b. record {
      state = book_state b.limit b.recorder.events b.questions.items;
      reserved = b.recorder.reserved;
      room = vec_capacity b.questions - vec_len b.questions;
    } };

    ghost invariant = { λ b. IsBook b.recorder.limit b.limit b.recorder.events b.questions.items };
}

impl Book {
    /// Creates an empty book that accepts at most `max_events` events.
    ///
    /// # Errors
    ///
    /// `BadLimit` if `max_events` is not 1 to `MAX_EVENTS`. An empty book allocates nothing, so
    /// `NoMemory` does not occur.
    pub fn new(alloc: Global, state: RandomState, max_events: u32) -> Result<Book, BookRefused>
        ensures made { IfOk result (λ book. book.state ≡ opening max_events) }
        ensures limit { IsOk result ↔ IsBookLimit max_events }
        ensures refused { IfErr result (λ refused. refused ≡ BadLimit) }
    {
        if max_events == 0 || max_events as usize > MAX_EVENTS {
            return Err(BookRefused::BadLimit);
        }
        Ok(Book {
            alloc,
            limit: max_events,
            recorder: Recorder::new(alloc, state, max_events as usize),
            questions: Vec::new(alloc),
        })
    }

    /// Returns the number of accepted events. Does not allocate. Its contract also states that the
    /// book's state is within its limits, and that all delivered rows are exactly those of their
    /// tasks.
    pub fn len(&self) -> usize
        ensures value { result ≡ length self.now.state.accepted }
        ensures fits { StateFits AreRows self.now.state }
    {
        let _ = &self.questions; // for the proof
        self.recorder.len()
    }

    /// Returns whether no event was accepted. Does not allocate.
    pub fn is_empty(&self) -> bool
        ensures { result ≡ nat_eq (length self.now.state.accepted) 0 }
    {
        self.len() == 0
    }

    /// Returns the accepted event at a place, or `None` if the place is not in the trace. Does not
    /// allocate.
    pub fn event(&self, place: Place) -> Option<Event>
        ensures { result ≡ slice_get self.now.state.accepted place }
    {
        self.recorder.event(place)
    }

    /// Returns the number of open questions.
    pub(crate) fn question_count(&self) -> u32
        ensures { result ≡ length self.now.state.questions }
    {
        self.questions.len() as u32
    }

    /// Returns the question with this number, or `None` if it is not open.
    pub(crate) fn question(&self, question: u32) -> Option<&QuestionState>
        ensures value { option_map (λ asked. question_of asked.now) result ≡
            slice_get self.now.state.questions question }
        ensures within { IfSome result
            (λ asked. asked.now.length ≤ length self.now.state.accepted) }
        ensures named { IfSome result
            (λ asked. HasNamedRows (take asked.now.length self.now.state.accepted) asked.now) }
        ensures total { IfSome result
            (λ asked. length asked.now.tasks ≡
            length (dependencies (take asked.now.length self.now.state.accepted))) }
    {
        self.questions.get(question as usize)
    }

    /// Checks an event and reserves memory for it. The state does not change.
    ///
    /// # Errors
    ///
    /// The first refusal that applies; `NoMemory` if none applies and an allocation fails.
    pub fn reserve_event(&mut self, event: &Event) -> Result<(), Refusal>
        ensures shown { self.new.state ≡ self.old.state }
        ensures ok { OnOk result ((self.new.reserved ≡ Some event.now)
            × (refusal_of self.old.state.limit self.old.state.accepted event.now ≡ None)) }
        ensures refused { IfErr result (RefusesOffer self.old.state event.now) }
    {
        self.recorder.check(event)?;
        match self.recorder.reserve(event) {
            Ok(()) => Ok(()),
            Err(_) => Err(Refusal::NoMemory),
        }
    }

    /// Returns the number of accepted events, which is also the next event's place.
    pub(crate) fn accepted(&self) -> u32
        ensures { result ≡ length self.now.state.accepted }
    {
        self.recorder.len() as u32
    }

    /// Appends the event. `reserve_event` must have succeeded for it on this state. Does not
    /// allocate.
    pub fn record_event(&mut self, event: &Event)
        requires reserved { self.old.reserved ≡ Some event.now }
        requires lawful { refusal_of self.old.state.limit self.old.state.accepted event.now ≡ None }
        ensures { self.new.state ≡ with_event self.old.state event.now }
    {
        self.recorder.record(event);
    }

    /// Adds the question. `reserve_question` must have returned it on this state. Does not
    /// allocate.
    pub fn record_question(&mut self, asked: QuestionState)
        requires room { 0 < self.old.room }
        requires allowed { ask_refused self.old.state asked.bound ≡ None }
        requires fresh { asked ≡ fresh self.old.state asked.bound }
        ensures { self.new.state ≡ with_question self.old.state asked.bound }
    {
        self.questions.push_reserved(asked);
    }

    /// Appends the event if it is lawful, and returns its place.
    ///
    /// # Errors
    ///
    /// The first refusal that applies; `NoMemory` if none applies and an allocation fails. Nothing
    /// changes.
    pub fn offer(&mut self, event: Event) -> Result<Place, Refusal>
        ensures ok { IfOk result (λ place. step report_printer self.old.state (Offer event) ≡
            (Placed place, self.new.state)) }
        ensures refused { IfErr result (λ refusal. RefusesOffer self.old.state event refusal
            × (self.new.state ≡ self.old.state)) }
    {
        self.reserve_event(&event)?;
        let place = Place::new(self.accepted());
        self.record_event(&event);
        Ok(place)
    }
}
