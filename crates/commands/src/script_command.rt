//! The command `script`: runs a script over one book.

pub(crate) mod printing;
pub(crate) mod reading;

ghost use Rattle.std.specs.Prelude.{◌≡◌, ℕ, List, [], false, None, Some, Ok, IfErr, IfOk, OnErr, OnOk};
ghost use Rattle.std.specs.List.{All};
ghost use Rattle.std.specs.Io.KnownBytes.{Appends};
ghost use Rattle.trace_model.specs.declared.messages.session.Request.{Request};
ghost use Rattle.trace_model.specs.Protocol.Frames.{IsRequest, frame};
ghost use Rattle.trace_model.specs.Protocol.Machine.{State};
ghost use Rattle.sequencer.specs.Book.{IsBookLimit, RefusesSnapshot};
ghost use Rattle.commands.specs.Exit.{error_status};
ghost use Rattle.commands.specs.Output.{AppendsPart, EndsWithResult, IsCutShort, Writes};
ghost use Rattle.commands.specs.Script.{reply_text};
ghost use Rattle.commands.specs.ScriptFile.{FitsCommand};
ghost use Rattle.commands.specs.ScriptRun.{DeliversTask, DeliversOne, IsJobIn, RefusesTask, Works, outcome_line};
ghost use Rattle.commands.specs.ScriptTells.{AnswersFrame, HasOneFrame, HasWrongCommand, IsFrame, IsPrintOf, IsReplyTo, Prints, PrintsAll, PrintsFirst, Replies, RunPrints, ScriptPrints, ScriptTells};
ghost use Rattle.commands.specs.declared.exit.Status.TheVariants.{Error};

use crate::exit::{CommandError, Status, reported, write_bytes};
use crate::files::read_file;
use crate::text::push_last;
use event_frames::{FrameReader, answer_frame, ask_frame, batch_frame, offer_frame, status_frame};
use findings::{Analysis, ComputeRefused, Job};
use printing::push_reply;
use reading::{Command, read_script};
use sequencer::Book;
use std::alloc::Global;
use std::hash::RandomState;
use std::io::{self, BufWriter, Write};
use trace_model::{Fault, MAX_EVENTS, Refusal, Reply, Request};

/// The session of a script, and its book. Between commands every byte of the session is read.
#[derive(Drop)]
struct ScriptSession {
    alloc: Global,
    reader: FrameReader,
    book: Book,
    text: Vec<u8>,
    ghost open: { reader.ended ≡ false },
    ghost read: { reader.rest ≡ [] },
    ghost faultless: { reader.returned ≡ None },
}

impl ScriptSession {
    /// Runs one command and writes its output.
    fn run<O: Write>(&mut self, command: &Command, out: &mut O) -> Result<(), CommandError>
        requires { FitsCommand command.now }
        ensures printed { OnOk result (Writes (O.contents out.old) (O.contents out.new)
            (Prints self.old.book.state command.now self.new.book.state)) }
        ensures cut { OnErr result (IsCutShort (O.contents out.old) (O.contents out.new)
            (IsPrintOf self.old.book.state command.now)) }
        ensures failed { IfErr result (λ error. error_status error ≡ Error) }
    {
        match command {
            Command::Offer(event) => self.request(&offer_frame(event), out),
            Command::Batch(batch) => {
                let frame = batch_frame(self.alloc, batch.events())?;
                self.request(&frame, out)
            }
            Command::Ask(bound) => self.request(&ask_frame(*bound), out),
            Command::Work(question) => {
                let worked = self.work(*question);
                self.write_number(b"worked ", worked, out)
            }
            Command::Deliver { question, task } => {
                let delivered = self.deliver(*question, *task);
                self.write_number(b"delivered ", delivered, out)
            }
            Command::Answer(question) => self.request(&answer_frame(*question), out),
            Command::Status(question) => self.request(&status_frame(*question), out),
        }
    }

    /// Runs the commands in order.
    fn run_all<O: Write>(&mut self, commands: &[Command], out: &mut O) -> Result<(), CommandError>
        requires { All FitsCommand commands.now }
        ensures printed { OnOk result (Writes (O.contents out.old) (O.contents out.new)
            (PrintsAll self.old.book.state commands.now self.new.book.state)) }
        ensures cut { OnErr result (IsCutShort (O.contents out.old) (O.contents out.new)
            (PrintsFirst self.old.book.state commands.now)) }
        ensures failed { IfErr result (λ error. error_status error ≡ Error) }
    {
        for command in commands {
            self.run(command, out)?;
        }
        Ok(())
    }

    /// Sends a request frame through the reader to the book, and writes the reply.
    fn request<O: Write>(&mut self, bytes: &[u8], out: &mut O) -> Result<(), CommandError>
        requires { IsFrame bytes.now }
        ensures printed { OnOk result ((request : Request) → IsRequest request
            → bytes.now ≡ frame request → Writes (O.contents out.old) (O.contents out.new)
            (Replies self.old.book.state request self.new.book.state)) }
        ensures cut { OnErr result ((request : Request) → IsRequest request
            → bytes.now ≡ frame request → IsCutShort (O.contents out.old) (O.contents out.new)
            (IsReplyTo self.old.book.state request)) }
        ensures failed { IfErr result (λ error. error_status error ≡ Error) }
    {
        self.reader.feed(bytes)?;
        let reply = reply_to_next(&mut self.reader, &mut self.book);
        let written = self.write(&reply, out);
        drop(reply);
        written
    }

    /// Writes the lines of a reply.
    fn write<O: Write>(&mut self, reply: &Reply, out: &mut O) -> Result<(), CommandError>
        ensures book { self.new.book ≡ self.old.book }
        ensures written { OnOk result
            (Appends (O.contents out.old) (O.contents out.new) (reply_text reply.now)) }
        ensures cut { OnErr result
            (AppendsPart (O.contents out.old) (O.contents out.new) (reply_text reply.now)) }
        ensures failed { IfErr result (λ error. error_status error ≡ Error) }
    {
        self.text.clear();
        push_reply(&mut self.text, reply)?;
        write_bytes(out, &self.text)
    }

    /// Writes the label with the number, or the refusal.
    fn write_number<O: Write>(
        &mut self,
        words: &[u8],
        outcome: Result<u32, Refusal>,
        out: &mut O,
    ) -> Result<(), CommandError>
        ensures book { self.new.book ≡ self.old.book }
        ensures written { OnOk result
            (Appends (O.contents out.old) (O.contents out.new) (outcome_line words.now outcome)) }
        ensures cut { OnErr result
            (AppendsPart (O.contents out.old) (O.contents out.new)
            (outcome_line words.now outcome)) }
        ensures failed { IfErr result (λ error. error_status error ≡ Error) }
    {
        match outcome {
            Ok(number) => {
                self.text.clear();
                push_last(&mut self.text, words, number as u64)?;
                write_bytes(out, &self.text)
            }
            Err(refusal) => self.write(&Reply::Refused(refusal), out),
        }
    }

    /// Returns a job that computes tasks of the question.
    fn job(&self, question: u32) -> Result<Job, Refusal>
        ensures job { IfOk result (λ job. (job.question ≡ question)
            × IsJobIn self.now.book.state job) }
        ensures refused { IfErr result (RefusesSnapshot self.now.book.state question) }
    {
        let Ok(status) = self.book.status(question) else {
            return Err(Refusal::NoSuchQuestion);
        };
        let snapshot = self.book.snapshot(question)?;
        let Ok(analysis) = Analysis::new(self.alloc, snapshot, status.bound) else {
            return Err(Refusal::NoMemory);
        };
        Ok(Job::new(self.alloc, analysis, question))
    }

    /// Computes a task of the job's question and delivers it to the book.
    fn deliver_task(&mut self, job: &mut Job, task: u32) -> Result<(), Refusal>
        requires { IsJobIn self.old.book.state job.old }
        ensures same { job.new ≡ job.old }
        ensures delivered { OnOk result
            (DeliversTask self.old.book.state job.old.question task self.new.book.state) }
        ensures refused { IfErr result (λ refusal. (self.new.book.state ≡ self.old.book.state)
            × RefusesTask self.old.book.state job.old.question task refusal) }
    {
        match job.compute(task) {
            Ok(finding) => match self.book.deliver_known(finding) {
                Ok(()) => Ok(()),
                Err((refusal, finding)) => {
                    drop(finding);
                    Err(refusal)
                }
            },
            Err(ComputeRefused::TooManyCycles) => Err(Refusal::TooManyCycles),
            Err(ComputeRefused::NoMemory) => Err(Refusal::NoMemory),
        }
    }

    /// Computes a task of the question and delivers it. Returns the task.
    fn deliver(&mut self, question: u32, task: u32) -> Result<u32, Refusal>
        ensures { DeliversOne self.old.book.state question task result self.new.book.state }
    {
        let mut job = self.job(question)?;
        let delivered = self.deliver_task(&mut job, task);
        drop(job);
        delivered?;
        Ok(task)
    }

    /// Computes and delivers the missing tasks of the job's question in ascending order. Returns
    /// their number.
    fn deliver_missing(&mut self, job: &mut Job, question: u32) -> Result<u32, Refusal>
        requires number { job.old.question ≡ question }
        requires job { IsJobIn self.old.book.state job.old }
        ensures { Works self.old.book.state question result self.new.book.state }
    {
        for worked in 0..MAX_EVENTS as u32 + 1 {
            let Ok(Some(task)) = self.book.missing(question) else {
                return Ok(worked);
            };
            self.deliver_task(job, task)?;
        }
        // A question has at most `MAX_EVENTS` tasks.
        let _ = self.book.len(); // for the proof
        unreachable!()
    }

    /// Computes and delivers the missing tasks of the question in ascending order. Returns their
    /// number.
    fn work(&mut self, question: u32) -> Result<u32, Refusal>
        ensures { Works self.old.book.state question result self.new.book.state }
    {
        let mut job = self.job(question)?;
        let worked = self.deliver_missing(&mut job, question);
        drop(job);
        worked
    }
}

/// Returns the book's reply to the request whose frame is the rest of the reader.
fn reply_to_next(reader: &mut FrameReader, book: &mut Book) -> Reply
    requires { HasOneFrame reader.old }
    ensures { AnswersFrame reader.old book.old.state result reader.new book.new.state }
{
    match reader.next_offer() {
        Some(event) => book.call_offer(event),
        None => reply_to_any(reader, book),
    }
}

/// Returns the book's reply as `reply_to_next` does. Not inlined: at entry it clears room for a
/// request on the stack, which an event does not need.
#[inline(never)]
fn reply_to_any(reader: &mut FrameReader, book: &mut Book) -> Reply
    requires { HasOneFrame reader.old }
    ensures { AnswersFrame reader.old book.old.state result reader.new book.new.state }
{
    book.call(&request_in(reader.next()))
}

/// Returns the request that was read from a whole frame.
fn request_in(read: Result<Option<Request>, Fault>) -> Request
    requires { (request : Request) × (read ≡ Ok (Some request)) }
    ensures { read ≡ Ok (Some result) }
{
    match read {
        Ok(Some(request)) => request,
        _ => unreachable!(),
    }
}

/// Runs the commands over an empty book, and flushes the output.
fn run_commands<O: Write>(
    alloc: Global,
    state: RandomState,
    commands: &[Command],
    limit: u32,
    out: &mut O,
) -> Result<Status, CommandError>
    requires limit { IsBookLimit limit }
    requires fit { All FitsCommand commands.now }
    ensures { EndsWithResult (RunPrints limit commands.now) ⊥ result
        (O.contents out.old) (O.contents out.new) }
{
    let Ok(book) = Book::new(alloc, state, limit) else {
        unreachable!()
    };
    let mut session = ScriptSession {
        alloc,
        reader: FrameReader::new(alloc),
        book,
        text: Vec::new(alloc),
    };
    let ran = session.run_all(commands, out);
    drop(session);
    let flushed = out.flush();
    ran?;
    flushed?;
    Ok(Status::Done)
}

/// Parses the whole script, and then runs it.
fn run_file<O: Write>(
    alloc: Global,
    state: RandomState,
    file: &[u8],
    limit: u32,
    out: &mut O,
) -> Result<Status, CommandError>
    requires { IsBookLimit limit }
    ensures { EndsWithResult (ScriptPrints file.now limit) (HasWrongCommand file.now) result
        (O.contents out.old) (O.contents out.new) }
{
    let commands = read_script(alloc, file)?;
    run_commands(alloc, state, &commands, limit, out)
}

/// Runs the script in `file` over a book that accepts at most `limit` events (1 to `MAX_EVENTS`).
/// The whole script is parsed before it runs. Its output goes to `out`; an error message about the
/// file `name` goes to `err`.
pub fn run_script<O: Write, E: Write>(
    alloc: Global,
    state: RandomState,
    name: &str,
    file: &[u8],
    limit: u32,
    out: &mut O,
    err: &mut E,
) -> Status
    requires { IsBookLimit limit }
    ensures { ScriptTells file.now limit result (O.contents out.old) (O.contents out.new) }
{
    let ended = run_file(alloc, state, file, limit, out);
    reported(ended, name, err)
}

/// Runs `script` over the file with this name, with a book that accepts at most `limit` events (1
/// to `MAX_EVENTS`). The status is `Error` if the file cannot be read.
///
/// # Errors
///
/// If an allocation or a standard stream fails before the script begins.
pub fn script_file(rt: &HostRuntime, file: &str, limit: u32) -> io::Result<Status>
    requires { IsBookLimit limit }
{
    let Some(bytes) = read_file(rt, file)? else {
        return Ok(Status::Error);
    };
    let state = RandomState::new(rt)?;
    let mut out = BufWriter::new(rt.alloc(), rt.stdout())?;
    let mut err = rt.stderr();
    Ok(run_script(rt.alloc(), state, file, &bytes, limit, &mut out, &mut err))
}
