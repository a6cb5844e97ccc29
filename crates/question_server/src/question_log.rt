//! The part of the log that is about questions.

use log::{Log, info};
use sequencer::{Answered, Calls};
use std::time::{Clock, Duration};
use trace_model::{MAX_QUESTIONS, QuestionStatus, Reply, Request};

/// The questions that are in the log already.
#[derive(Drop)]
pub struct QuestionLog {
    /// The number of questions in the log.
    opened: u32,
    /// When each unsettled question was first seen.
    asked: [Option<Duration>; MAX_QUESTIONS],
}

impl QuestionLog {
    /// Returns the state before any question is in the log.
    pub fn new() -> QuestionLog {
        QuestionLog {
            opened: 0,
            asked: [None; MAX_QUESTIONS],
        }
    }

    /// Logs each question that was asked or settled since the last look. The time of a question is
    /// as exact as the looks are frequent.
    pub fn look<R: Clock, C: Calls, L: Log>(&mut self, rt: &R, calls: &mut C, log: &L) {
        let Ok(now) = rt.monotonic() else {
            return;
        };
        self.log_asked(now, calls, log);
        for question in 0..self.opened {
            if let Some(asked) = self.asked_at(question)
                && let Some(status) = status_of(calls, question)
                && status.delivered == status.total
            {
                log_settled(log, &status, now.saturating_sub(asked));
                self.set_asked(question, None);
            }
        }
    }

    /// Logs the questions that were asked since the last look.
    fn log_asked<C: Calls, L: Log>(&mut self, now: Duration, calls: &mut C, log: &L) {
        for question in self.opened..MAX_QUESTIONS as u32 {
            let Some(status) = status_of(calls, question) else {
                return;
            };
            self.set_asked(question, Some(now));
            self.opened = question + 1;
            log_asked(log, &status);
        }
    }

    /// Returns when an unsettled question was first seen.
    fn asked_at(&self, question: u32) -> Option<Duration> {
        *self.asked.get(question as usize)?
    }

    fn set_asked(&mut self, question: u32, time: Option<Duration>) {
        if let Some(asked) = self.asked.get_mut(question as usize) {
            *asked = time;
        }
    }
}

/// Returns the status of a question, or `None` if it is not open or the board is busy.
fn status_of<C: Calls>(calls: &mut C, question: u32) -> Option<QuestionStatus> {
    let answered = calls.call(Request::Status(question));
    let status = match &answered {
        Answered::Whole(Reply::Status(status)) => Some(*status),
        _ => None,
    };
    drop(answered);
    status
}

/// Logs that a question was asked.
fn log_asked<L: Log>(log: &L, status: &QuestionStatus) {
    let question = status.question;
    let length = status.length;
    let bound = status.bound.get();
    let total = status.total;
    info!(log; "question {question} is asked: length {length}, bound {bound}, tasks {total}");
}

/// Logs that a question is settled.
fn log_settled<L: Log>(log: &L, status: &QuestionStatus, time: Duration) {
    let question = status.question;
    let seconds = time.as_secs();
    let tenths = time.subsec_millis() / 100;
    let cycles = status.cycles;
    let confirmed = status.confirmed;
    info!(
        log;
        "question {question} is settled after {seconds}.{tenths} s: cycles {cycles}, \
         confirmed {confirmed}"
    );
}
