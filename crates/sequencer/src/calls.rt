//! The interface between a session and the book or desk that answers it.
ghost use Rattle.trace_model.specs.Protocol.Replies.{IsReply};
ghost use Rattle.trace_model.specs.declared.messages.session.Request.{Request};
ghost use Rattle.trace_model.specs.declared.messages.session.Reply.{Reply};
ghost use Rattle.sequencer.specs.Answered.{reply_in};
ghost use Rattle.sequencer.specs.Called.{StepsOrMemory};

use crate::answered::Answered;
use crate::book::Book;
use trace_model::Request;

/// Answers the requests of a session.
pub trait Calls {
    /// In the first state the request may get this reply, which leads to the second state.
    ghost steps: { Self → Request → Reply → Self → Type 0 };

    /// Answers a request.
    fn call(&mut self, request: Request) -> Answered
        ensures step { steps self.old request (reply_in result) self.new }
        ensures fits { IsReply (reply_in result) };
}

/// A book replies as the machine does. If an allocation fails the reply is `NoMemory`, and the book
/// does not change, except for the accepted events of a batch.
impl Calls for Book {
    ghost steps = { λ old request reply new. StepsOrMemory old.state request reply new.state };

    fn call(&mut self, request: Request) -> Answered {
        Answered::Whole(Book::call(self, &request))
    }
}
