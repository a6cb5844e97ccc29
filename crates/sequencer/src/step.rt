//! Requests in two phases: prepare, which may fail, and commit, which does not allocate.

ghost use Rattle.std.specs.Prelude.{◌≡◌, IfErr, IfOk};
ghost use Rattle.trace_model.specs.Protocol.Machine as machine;
ghost use Rattle.trace_model.specs.Protocol.Replies.{IsReply};
ghost use Rattle.trace_model.specs.declared.messages.session.Request.TheVariants as requests;
ghost use Rattle.sequencer.specs.Book.{IsPrepared, IsRefusal, Refuses, change_request};
ghost use Rattle.sequencer.specs.Called.{IsSingle, StepsOrMemory, WantsRightly};
ghost use Rattle.sequencer.specs.Printing.{report_printer};

use crate::book::Book;
use crate::question_state::QuestionState;
use std::marker::Model;
use trace_model::{Event, Place, Refusal, Reply, Request};

/// The change of a prepared request: a new event, a new question, or none.
#[derive(Drop)]
pub enum Change {
    Accept(Event),
    Open(QuestionState),
    ReadAnswer(u32),
    ReadStatus(u32),
}

/// A request that was checked and has its memory reserved, with its reply.
#[derive(Drop)]
pub struct Step {
    change: Change,
    reply: Reply,
}

impl Model for Step {
    ghost use Rattle.sequencer.specs.Book.{StepView};

    ghost Value = { StepView };

    ghost view = { λ s. record { change = s.change; reply = s.reply } };
}

impl Step {
    /// Returns the reply that `commit` will give. Does not allocate.
    pub fn reply(&self) -> &Reply
        ensures { result.now ≡ self.now.reply }
    {
        &self.reply
    }
}

impl Book {
    /// Checks a request, which must not be a batch, and makes every allocation for it. The state
    /// does not change.
    ///
    /// # Errors
    ///
    /// The reply that refuses the request. It is `NoMemory` only if all checks passed, an
    /// allocation failed, and the request would add an event or a question or print a report.
    pub fn prepare(&mut self, request: &Request) -> Result<Step, Reply>
        requires { IsSingle request.now }
        ensures shown { self.new.state ≡ self.old.state }
        ensures ok { IfOk result (λ planned. (change_request planned.change ≡ request.now)
            × IsPrepared self.new planned) }
        ensures refused { IfErr result (Refuses self.old.state request.now) }
        ensures refusal { IfErr result (IsRefusal self.old.state request.now) }
    {
        match request {
            Request::Offer(event) => self.prepare_offer(*event),
            Request::Ask(bound) => self.prepare_ask(*bound),
            Request::Answer(question) => self.prepare_answer(*question),
            Request::Status(question) => self.prepare_status(*question),
            Request::Batch(_) => unreachable!(),
        }
    }

    fn prepare_offer(&mut self, event: Event) -> Result<Step, Reply>
        ensures shown { self.new.state ≡ self.old.state }
        ensures ok { IfOk result (λ planned. (change_request planned.change ≡ requests.Offer event)
            × IsPrepared self.new planned) }
        ensures refused { IfErr result (Refuses self.old.state (requests.Offer event)) }
        ensures refusal { IfErr result (IsRefusal self.old.state (requests.Offer event)) }
    {
        if let Err(refusal) = self.reserve_event(&event) {
            return Err(Reply::Refused(refusal));
        }
        Ok(Step {
            change: Change::Accept(event),
            reply: Reply::Placed(Place::new(self.accepted())),
        })
    }

    fn prepare_ask(&mut self, bound: u8) -> Result<Step, Reply>
        ensures shown { self.new.state ≡ self.old.state }
        ensures ok { IfOk result (λ planned. (change_request planned.change ≡ requests.Ask bound)
            × IsPrepared self.new planned) }
        ensures refused { IfErr result (Refuses self.old.state (requests.Ask bound)) }
        ensures refusal { IfErr result (IsRefusal self.old.state (requests.Ask bound)) }
    {
        match self.reserve_question(bound) {
            Ok(asked) => {
                let reply = self.preview(&asked).reply();
                Ok(Step {
                    change: Change::Open(asked),
                    reply,
                })
            }
            Err(refused) => Err(Reply::Refused(refused.refusal())),
        }
    }

    fn prepare_answer(&mut self, question: u32) -> Result<Step, Reply>
        ensures shown { self.new.state ≡ self.old.state }
        ensures ok { IfOk result (λ planned. (change_request planned.change
            ≡ requests.Answer question)
            × IsPrepared self.new planned) }
        ensures refused { IfErr result (Refuses self.old.state (requests.Answer question)) }
        ensures refusal { IfErr result (IsRefusal self.old.state (requests.Answer question)) }
    {
        match self.answer(question) {
            Ok(answer) => Ok(Step {
                change: Change::ReadAnswer(question),
                reply: answer.reply(question),
            }),
            Err(refused) => Err(Reply::Refused(refused.refusal())),
        }
    }

    fn prepare_status(&self, question: u32) -> Result<Step, Reply>
        ensures ok { IfOk result (λ planned. (change_request planned.change
            ≡ requests.Status question)
            × IsPrepared self.now planned) }
        ensures refused { IfErr result (Refuses self.now.state (requests.Status question)) }
        ensures refusal { IfErr result (IsRefusal self.now.state (requests.Status question)) }
    {
        let Ok(status) = self.status(question) else {
            return Err(Reply::Refused(Refusal::NoSuchQuestion));
        };
        Ok(Step {
            change: Change::ReadStatus(question),
            reply: Reply::Status(status),
        })
    }

    /// Carries out a step that was prepared on this state, and returns its reply. Does not
    /// allocate.
    pub fn commit(&mut self, planned: Step) -> Reply
        requires { IsPrepared self.old planned }
        ensures { machine.step report_printer self.old.state (change_request planned.change) ≡
            (result, self.new.state) }
    {
        let Step { change, reply } = planned;
        match change {
            Change::Accept(event) => self.record_event(&event),
            Change::Open(asked) => self.record_question(asked),
            Change::ReadAnswer(_) | Change::ReadStatus(_) => {}
        }
        reply
    }

    /// Answers the request that offers `event`. If an allocation fails the reply is `NoMemory`, and
    /// nothing changes.
    pub fn call_offer(&mut self, event: Event) -> Reply
        ensures steps { StepsOrMemory self.old.state (requests.Offer event) result self.new.state }
        ensures wanting { WantsRightly self.old.state (requests.Offer event) result }
        ensures fits { IsReply result }
    {
        match self.offer(event) {
            Ok(place) => Reply::Placed(place),
            Err(refusal) => Reply::Refused(refusal),
        }
    }

    /// Answers a request: offers an event or a batch; prepares and commits any other request. If an
    /// allocation fails the reply is `NoMemory`, and nothing changes except for the accepted events
    /// of a batch.
    pub fn call(&mut self, request: &Request) -> Reply
        ensures steps { StepsOrMemory self.old.state request.now result self.new.state }
        ensures wanting { WantsRightly self.old.state request.now result }
        ensures fits { IsReply result }
    {
        match request {
            Request::Offer(event) => self.call_offer(*event),
            Request::Batch(batch) => self.offer_batch(batch.events()).reply(),
            _ => match self.prepare(request) {
                Ok(planned) => self.commit(planned),
                Err(reply) => reply,
            },
        }
    }
}
