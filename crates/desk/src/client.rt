//! The client of a desk: it answers the requests of one session.
ghost use Rattle.std.specs.Prelude.{◌≡◌};
ghost use mathlib.Core.List.{IsPrefix};
ghost use Rattle.trace_model.specs.Protocol.Batches.{IsBatch};
ghost use Rattle.trace_model.specs.Protocol.Replies.{IsReply};
ghost use Rattle.trace_model.specs.Protocol.Runs as runs;
ghost use Rattle.trace_model.specs.Protocol.Runs.{shown_status};
ghost use Rattle.trace_model.specs.declared.messages.session.Request.TheVariants as requests;
ghost use Rattle.board.specs.Totals.{ShowsCounts};
ghost use Rattle.sequencer.specs.Answered.{reply_in};
ghost use Rattle.desk.specs.Clients.{IsResponse, IsStatus, StepsAtDesk};

use crate::desk::Desk;
use board::{BoardReader, BoardValue, HistoryId, Receipt, Summary};
use sequencer::{Answered, Calls};
use std::marker::Model;
use std::sync::{Arc, Wait};
use trace_model::{Event, QuestionStatus, Refusal, Reply, Request};

/// A desk and a reader of its board, for one session. The reader learns the receipt of each call,
/// so a status, which is read from the board, covers every step that the session received a reply
/// for. Contracts see a client as its reader.
pub struct Client<N: HistoryId, R: Wait + Copy, T: BoardValue<N>> {
    desk: Arc<Desk<N, R, T>>,
    reader: BoardReader<N>,
}

impl<N: HistoryId, R: Wait + Copy, T: BoardValue<N>> Drop for Client<N, R, T> {
    fn drop(self) {
        let Client { desk: _, reader: _ } = self;
    }
}

impl<N: HistoryId, R: Wait + Copy, T: BoardValue<N>> Model for Client<N, R, T> {
    ghost use Rattle.board.specs.Fits.{ReaderView};

    ghost Value = { ReaderView };

    ghost view = { λ c. c.reader };
}

impl<N: HistoryId, R: Wait + Copy, T: BoardValue<N>> Client<N, R, T> {
    /// Creates a client. The reader must be of this desk.
    pub fn new(desk: Arc<Desk<N, R, T>>, reader: BoardReader<N>) -> Client<N, R, T>
        ensures { result ≡ reader }
    {
        Client { desk, reader }
    }

    /// Returns the reader, for a later session. Does not allocate.
    pub fn into_reader(self) -> BoardReader<N>
        ensures { result ≡ self }
    {
        let Client { desk: _, reader } = self;
        reader
    }

    /// Learns the receipt of a desk's call, which began after the last one ended, and returns its
    /// answer.
    fn learn<A: Drop>(&mut self, response: (A, Receipt<N>)) -> A
        ensures answer { result ≡ response.0 }
        ensures later { IsPrefix self.old.known self.new.known }
        ensures seen { self.new.known ≡ response.1 }
        ensures entered { self.new.failed ≡ self.old.failed }
    {
        let (answer, receipt) = response;
        self.reader.catch_up(&self.desk.rt(), &receipt);
        answer
    }

    fn offer(&mut self, event: Event) -> Reply
        ensures response { IsResponse N.limit self.old (requests.Offer event) result self.new }
        ensures fits { IsReply result }
    {
        let response = self.desk.offer(event);
        match self.learn(response) {
            Ok(place) => Reply::Placed(place),
            Err(refusal) => Reply::Refused(refusal),
        }
    }

    fn offer_batch(&mut self, events: &[Event]) -> Reply
        requires { IsBatch events.now }
        ensures response { IsResponse N.limit self.old (requests.Batch events.now) result self.new }
        ensures fits { IsReply result }
    {
        let response = self.desk.offer_batch(events);
        self.learn(response).reply()
    }

    fn ask(&mut self, bound: u8) -> Reply
        ensures response { IsResponse N.limit self.old (requests.Ask bound) result self.new }
        ensures fits { IsReply result }
    {
        let response = self.desk.ask(bound);
        match self.learn(response) {
            Ok(opened) => opened.reply(),
            Err(refused) => Reply::Refused(refused.refusal()),
        }
    }

    fn answer(&mut self, question: u32) -> Answered
        ensures response { IsResponse N.limit self.old (requests.Answer question)
            (reply_in result) self.new }
        ensures fits { IsReply (reply_in result) }
    {
        let response = self.desk.answer(question);
        match self.learn(response) {
            Ok(answered) => answered,
            Err(refused) => Answered::Whole(Reply::Refused(refused.refusal())),
        }
    }

    fn status(&mut self, question: u32) -> Reply
        ensures shown { IsStatus self.old question result self.new }
        ensures fits { IsReply result }
    {
        match self.reader.status() {
            Ok(summary) => status_in(&summary, question),
            Err(_busy) => Reply::Refused(Refusal::BoardBusy),
        }
    }
}

/// Returns the status reply for a question, from a summary.
fn status_in(summary: &Summary, question: u32) -> Reply
    ensures shown { (counts : runs.Summary) → ShowsCounts summary.now counts →
        result ≡ shown_status counts question }
    ensures fits { IsReply result }
{
    match summary.question(question) {
        Some(asked) => Reply::Status(QuestionStatus {
            question,
            accepted: summary.accepted,
            opened: summary.opened,
            length: asked.length,
            bound: asked.bound,
            total: asked.total,
            delivered: asked.delivered,
            cycles: asked.cycles,
            confirmed: asked.confirmed,
        }),
        None => Reply::Refused(Refusal::NoSuchQuestion),
    }
}

/// A status is read from the board, and is `BoardBusy` if the board cannot be read. All other
/// requests go to the desk.
impl<N: HistoryId, R: Wait + Copy, T: BoardValue<N>> Calls for Client<N, R, T> {
    ghost steps = { λ old request reply new. StepsAtDesk N.limit old request reply new };

    fn call(&mut self, request: Request) -> Answered {
        match request {
            Request::Offer(event) => Answered::Whole(self.offer(event)),
            Request::Ask(bound) => Answered::Whole(self.ask(bound)),
            Request::Answer(question) => self.answer(question),
            Request::Status(question) => Answered::Whole(self.status(question)),
            Request::Batch(batch) => Answered::Whole(self.offer_batch(batch.events())),
        }
    }
}
