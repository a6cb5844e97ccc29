//! Opening questions.

ghost use Rattle.std.specs.Prelude.{◌≡◌, ℕ, slice_get, IfErr, IfOk, MatchOption, Some, None};
ghost use Rattle.trace_model.specs.Protocol.Machine.{Question, ask_refused, step};
ghost use Rattle.trace_model.specs.declared.messages.session.Request.TheVariants.{Ask};
ghost use Rattle.sequencer.specs.declared.step.Change.TheVariants.{Open};
ghost use Rattle.sequencer.specs.Book.{HasChangeRoom, IsLeastMissingTask, RefusesAsk, ask_refusal, fresh, opened_reply};
ghost use Rattle.sequencer.specs.Printing.{report_printer};

use crate::book::{Book, NoSuchQuestion};
use crate::question_state::QuestionState;
use thiserror::Error;
use trace_model::{Bound, MAX_QUESTIONS, NoMemory, Refusal};

/// Why a question was not opened.
#[derive(Clone, Copy, Debug, PartialEq, Eq, Error)]
pub enum AskRefused {
    #[error("the bound is not 2 to 8")]
    BadBound,
    #[error("too many questions")]
    TooManyQuestions,
    #[error("no memory")]
    NoMemory,
}

impl AskRefused {
    /// Returns the refusal with this reason.
    pub fn refusal(self) -> Refusal
        ensures { result ≡ ask_refusal self }
    {
        match self {
            AskRefused::BadBound => Refusal::BadBound,
            AskRefused::TooManyQuestions => Refusal::TooManyQuestions,
            AskRefused::NoMemory => Refusal::NoMemory,
        }
    }
}

/// An opened question: its number from 0, the number of events that it covers, and the number of
/// its tasks.
#[derive(Clone, Copy, Debug, PartialEq, Eq)]
pub struct Opened {
    pub question: u32,
    pub length: u32,
    pub total: u32,
}

impl Book {
    /// Opens a question about the accepted events. Its cycles have at most `bound` members.
    ///
    /// # Errors
    ///
    /// The first that applies. Nothing changes.
    /// - `BadBound` if the bound is not 2 to 8.
    /// - `TooManyQuestions` if `MAX_QUESTIONS` questions are open.
    /// - `NoMemory` if an allocation fails.
    pub fn ask(&mut self, bound: u8) -> Result<Opened, AskRefused>
        ensures ok { IfOk result (λ opened. step report_printer self.old.state (Ask bound) ≡
            (opened_reply opened, self.new.state)) }
        ensures refused { IfErr result (λ refused. RefusesAsk self.old.state bound refused
            × (self.new.state ≡ self.old.state)) }
    {
        let asked = self.reserve_question(bound)?;
        let opened = self.preview(&asked);
        self.record_question(asked);
        Ok(opened)
    }

    /// Checks a bound, creates a question about the accepted events, and reserves memory for it.
    /// The state does not change.
    ///
    /// # Errors
    ///
    /// As of `ask`.
    pub fn reserve_question(&mut self, bound: u8) -> Result<QuestionState, AskRefused>
        ensures shown { self.new.state ≡ self.old.state }
        ensures ok { IfOk result (λ asked. (asked.bound ≡ bound)
            × HasChangeRoom self.new (Open asked)) }
        ensures allowed { IfOk result (λ asked. ask_refused self.old.state bound ≡ None) }
        ensures refused { IfErr result (RefusesAsk self.old.state bound) }
    {
        let Some(bound) = Bound::new(bound) else {
            return Err(AskRefused::BadBound);
        };
        if self.question_count() as usize >= MAX_QUESTIONS {
            return Err(AskRefused::TooManyQuestions);
        }
        match self.new_question(bound) {
            Ok(asked) => Ok(asked),
            Err(_) => Err(AskRefused::NoMemory),
        }
    }

    /// Creates a question about the accepted events, and reserves memory for it.
    fn new_question(&mut self, bound: Bound) -> Result<QuestionState, NoMemory>
        ensures shown { self.new.state ≡ self.old.state }
        ensures ok { IfOk result (λ asked. (asked.bound ≡ bound)
            × HasChangeRoom self.new (Open asked)) }
    {
        self.recorder.catch_up()?;
        self.questions.reserve(1)?;
        let length = self.recorder.len() as u32;
        let total = self.recorder.dependencies() as u32;
        QuestionState::new(self.alloc, length, bound, total)
    }

    /// Returns what `record_question` will open. `reserve_question` must have returned the question
    /// on this state. Does not allocate.
    pub fn preview(&self, asked: &QuestionState) -> Opened
        requires allowed { ask_refused self.now.state asked.now.bound ≡ None }
        requires fresh { asked.now ≡ fresh self.now.state asked.now.bound }
        ensures { (step report_printer self.now.state (Ask asked.now.bound)).0
            ≡ opened_reply result }
    {
        Opened {
            question: self.question_count(),
            length: asked.length(),
            total: asked.total(),
        }
    }

    /// Returns the least missing task of the question, or `None` if all are delivered. Does not
    /// allocate.
    ///
    /// # Errors
    ///
    /// `NoSuchQuestion` if it is not open.
    pub fn missing(&self, question: u32) -> Result<Option<u32>, NoSuchQuestion>
        ensures ok { IfOk result (λ task. (q : Question)
            × (slice_get self.now.state.questions question ≡ Some q)
            × MatchOption task ((other : ℕ) → slice_get q.tasks other ≡ Some None → ⊥)
            (IsLeastMissingTask q)) }
        ensures refused { IfErr result (λ _. slice_get self.now.state.questions question ≡ None) }
    {
        let Some(asked) = self.question(question) else {
            return Err(NoSuchQuestion);
        };
        Ok(asked.missing())
    }
}
