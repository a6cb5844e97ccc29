//! The reply for each outcome of a request.

ghost use Rattle.std.specs.Prelude.{◌≡◌};
ghost use Rattle.trace_model.specs.declared.messages.session.Reply.TheVariants as replies;
ghost use Rattle.sequencer.specs.Book.{answer_reply, opened_reply};

use crate::answering::Answer;
use crate::asking::Opened;
use crate::batching::Batched;
use trace_model::Reply;

impl Batched {
    /// Returns the reply with this outcome.
    pub fn reply(self) -> Reply
        ensures { result ≡ replies.Batched self.accepted self.refusal self.length }
    {
        Reply::Batched {
            accepted: self.accepted,
            refusal: self.refusal,
            length: self.length,
        }
    }
}

impl Opened {
    /// Returns the reply with this outcome.
    pub fn reply(self) -> Reply
        ensures { result ≡ opened_reply self }
    {
        Reply::Opened {
            question: self.question,
            length: self.length,
            total: self.total,
        }
    }
}

impl Answer {
    /// Returns the reply about the question with this number. Does not allocate.
    pub fn reply(self, question: u32) -> Reply
        ensures { result ≡ answer_reply question self }
    {
        match self {
            Answer::Pending { delivered, total } => Reply::Pending {
                question,
                delivered,
                total,
            },
            Answer::Settled(text) => Reply::Report { question, text },
        }
    }
}
