//! Answers and status of questions. An answer has two parts: the rows, which the book shares, and
//! the text, which is printed from them without the book, as a whole or piece by piece.

ghost use Rattle.std.specs.Prelude.{◌≡◌, ℕ, List, Vec, Some, map, flat_map, IfErr, IfOk};
ghost use Rattle.std.specs.declared.alloc.Global.{Global};
ghost use Rattle.reports.specs.Printed.{PrintedRow};
ghost use Rattle.reports.specs.Text.{report};
ghost use Rattle.result_ledger.specs.Tasks.{IsMissing};
ghost use Rattle.trace_model.specs.Protocol.Machine as machine;
ghost use Rattle.trace_model.specs.declared.refusal.Refusal.TheVariants as refusals;
ghost use Rattle.trace_model.specs.declared.messages.session.Reply.TheVariants.{Refused, Status};
ghost use Rattle.sequencer.specs.Answered.{reply_in};
ghost use Rattle.sequencer.specs.Book.{RefusesAnswer, RefusesReply, answer_refusal, answer_reply, shared_reply, text_reply, IsAnswered};
ghost use Rattle.sequencer.specs.Printing.{report_printer};

use crate::answered::Answered;
use crate::book::{Book, NoSuchQuestion};
use crate::question_state::QuestionState;
use crate::report_reply::ReportReply;
use crate::row_text::RowText;
use reports::{TextRefused, begin_report, is_too_long, report_text};
use result_ledger::SharedTasks;
use std::alloc::Global;
use thiserror::Error;
use trace_model::{Bound, QuestionStatus, Refusal, Reply, ReportText};

/// The answer to a question: the number of delivered tasks, or the report if all are delivered.
#[derive(Debug, Drop)]
pub enum Answer {
    Pending { delivered: u32, total: u32 },
    Settled(ReportText),
}

/// Why a question was not answered.
#[derive(Clone, Copy, Debug, PartialEq, Eq, Error)]
pub enum AnswerRefused {
    #[error("no such question")]
    NoSuchQuestion,
    #[error("the report is too long")]
    ReportTooLong,
    #[error("no memory")]
    NoMemory,
}

impl AnswerRefused {
    /// Returns the refusal with this reason.
    pub fn refusal(self) -> Refusal
        ensures { result ≡ answer_refusal self }
    {
        match self {
            AnswerRefused::NoSuchQuestion => Refusal::NoSuchQuestion,
            AnswerRefused::ReportTooLong => Refusal::ReportTooLong,
            AnswerRefused::NoMemory => Refusal::NoMemory,
        }
    }
}

/// A settled question: its length, its bound and the rows of its tasks, which it shares with the
/// book. They do not change any more.
#[derive(Drop)]
pub struct SettledQuestion {
    length: u32,
    bound: Bound,
    tasks: SharedTasks,
}

/// An answer whose report is not printed yet. It needs the book no longer.
#[derive(Drop)]
pub enum SharedAnswer {
    Pending { delivered: u32, total: u32 },
    Settled(SettledQuestion),
}

impl SharedAnswer {
    /// Prints the report about the question with this number, if it is settled.
    ///
    /// # Errors
    ///
    /// - `ReportTooLong` if the report has more than `MAX_REPORT` bytes.
    /// - `NoMemory` if the report cannot be allocated.
    pub fn print(self, alloc: Global, question: u32) -> Result<Answer, AnswerRefused>
        ensures ok { IfOk result (λ answer. shared_reply question self ≡
            answer_reply question answer) }
        ensures refused { IfErr result (RefusesReply (shared_reply question self)) }
    {
        let settled = match self {
            SharedAnswer::Pending { delivered, total } => {
                return Ok(Answer::Pending { delivered, total });
            }
            SharedAnswer::Settled(settled) => settled,
        };
        let tasks = settled.tasks.as_slice();
        match report_text(alloc, question, settled.length, settled.bound, tasks) {
            Ok(text) => Ok(Answer::Settled(ReportText::from_vec(text))),
            Err(TextRefused::TooLong) => Err(AnswerRefused::ReportTooLong),
            Err(TextRefused::NoMemory) => Err(AnswerRefused::NoMemory),
        }
    }

    /// Returns the reply about the question with this number. The report, if it is settled, is
    /// measured and its first line is printed; the text of its rows is not in memory.
    ///
    /// # Errors
    ///
    /// - `ReportTooLong` if the report has more than `MAX_REPORT` bytes.
    /// - `NoMemory` if the first line cannot be allocated.
    pub fn reply(self, alloc: Global, question: u32) -> Result<Answered, AnswerRefused>
        ensures ok { IfOk result (λ answered. shared_reply question self ≡ reply_in answered) }
        ensures refused { IfErr result (RefusesReply (shared_reply question self)) }
    {
        let settled = match self {
            SharedAnswer::Pending { delivered, total } => {
                return Ok(Answered::Whole(Reply::Pending {
                    question,
                    delivered,
                    total,
                }));
            }
            SharedAnswer::Settled(settled) => settled,
        };
        let tasks = settled.tasks.as_slice();
        match begin_report(alloc, question, settled.length, settled.bound, tasks) {
            Ok(start) => Ok(Answered::Report(ReportReply {
                question,
                bytes: start.bytes,
                first_line: start.first_line,
                rows: RowText::new(settled.tasks),
            })),
            Err(TextRefused::TooLong) => Err(AnswerRefused::ReportTooLong),
            Err(TextRefused::NoMemory) => Err(AnswerRefused::NoMemory),
        }
    }
}

impl QuestionState {
    /// Returns what the answer is made of. `question` is the number of this question.
    ///
    /// # Errors
    ///
    /// As of `Book::share_answer`, except `NoSuchQuestion`.
    pub(crate) fn share_answer(&mut self, question: u32) -> Result<SharedAnswer, AnswerRefused>
        ensures same { self.new ≡ self.old }
        ensures ok { IfOk result (λ shared. IsAnswered self.old question
            (λ reply. reply ≡ shared_reply question shared)) }
        ensures refused { IfErr result (λ refused. IsAnswered self.old question
            (λ reply. RefusesReply reply refused)) }
    {
        match self.share() {
            Ok(Some(tasks)) => Ok(SharedAnswer::Settled(SettledQuestion {
                length: self.length(),
                bound: self.bound(),
                tasks,
            })),
            Ok(None) => Ok(SharedAnswer::Pending {
                delivered: self.delivered(),
                total: self.total(),
            }),
            Err(_) => Err(unshared(self, question)),
        }
    }
}

impl Book {
    /// Returns what the answer to a question is made of, without printing its report. Takes the
    /// same time for any number of rows. Nothing changes.
    ///
    /// # Errors
    ///
    /// - `NoSuchQuestion` if it is not open.
    /// - `NoMemory` if an allocation fails; never while tasks are missing. It is `ReportTooLong`
    ///   instead if the report has more than `MAX_REPORT` bytes.
    pub fn share_answer(&mut self, question: u32) -> Result<SharedAnswer, AnswerRefused>
        ensures same { self.new ≡ self.old }
        ensures ok { IfOk result
            (λ shared. machine.answer report_printer self.old.state question ≡
            shared_reply question shared) }
        ensures refused { IfErr result (RefusesAnswer self.old.state question) }
    {
        if question as usize >= self.questions.len() {
            return Err(AnswerRefused::NoSuchQuestion);
        }
        self.questions[question as usize].share_answer(question)
    }

    /// Returns the report of a question if all its tasks are delivered, else how many are. Nothing
    /// changes.
    ///
    /// # Errors
    ///
    /// - `NoSuchQuestion` if it is not open.
    /// - `ReportTooLong` if the report has more than `MAX_REPORT` bytes.
    /// - `NoMemory` if the report cannot be allocated; never while tasks are missing.
    pub fn answer(&mut self, question: u32) -> Result<Answer, AnswerRefused>
        ensures same { self.new ≡ self.old }
        ensures ok { IfOk result (λ answer. machine.answer report_printer self.old.state question ≡
            answer_reply question answer) }
        ensures refused { IfErr result (RefusesAnswer self.old.state question) }
    {
        self.share_answer(question)?.print(self.alloc, question)
    }

    /// Returns the counts of the book and of a question. Does not allocate.
    ///
    /// # Errors
    ///
    /// `NoSuchQuestion` if it is not open.
    pub fn status(&self, question: u32) -> Result<QuestionStatus, NoSuchQuestion>
        ensures ok { IfOk result (λ status. machine.status self.now.state question ≡
            Status status) }
        ensures refused { IfErr result (λ _. machine.status self.now.state question ≡
            Refused refusals.NoSuchQuestion) }
    {
        let Some(asked) = self.question(question) else {
            return Err(NoSuchQuestion);
        };
        Ok(QuestionStatus {
            question,
            accepted: self.accepted(),
            opened: self.question_count(),
            length: asked.length(),
            bound: asked.bound(),
            total: asked.total(),
            delivered: asked.delivered(),
            cycles: asked.cycles(),
            confirmed: asked.confirmed(),
        })
    }
}

/// Returns why a settled question whose rows could not be shared is not answered.
fn unshared(asked: &QuestionState, question: u32) -> AnswerRefused
    requires settled { (task : ℕ) → IsMissing asked.now.tasks task → ⊥ }
    ensures { (tasks : List (Vec PrintedRow Global))
        × (asked.now.tasks ≡ map (λ task. Some task.items) tasks)
        × RefusesReply (text_reply question (report question asked.now.length asked.now.bound
        (flat_map (λ task. task.items) tasks))) result }
{
    match asked.settled() {
        Some(tasks) if is_too_long(question, asked.length(), asked.bound(), tasks) => {
            AnswerRefused::ReportTooLong
        }
        _ => AnswerRefused::NoMemory,
    }
}
