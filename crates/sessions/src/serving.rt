//! The loop of a session.
ghost use Rattle.std.specs.Prelude.{◌≡◌, ◌<◌, ◌++◌, ℕ, take, None, IfOk, OnOk, OnErr, IfErr};
ghost use Rattle.std.specs.Io.KnownBytes.{Appends, Keeps};
ghost use Rattle.trace_model.specs.Protocol.Replies.{reply_frame, IsReply};
ghost use Rattle.sequencer.specs.Answered.{reply_in};
ghost use Rattle.sessions.specs.Serving.{between, session_point, AnswersRequests, BreaksOff, IsCountedFault, ServesText, Counts};
ghost use Rattle.sessions.specs.declared.serving.ServeFault.TheVariants.{Write};

use crate::ends::{Sink, Source, TransferFailed};
use event_frames::{FrameReader, encode_head, frame_text, report_head};
use sequencer::{Answered, Calls, Piece, ReportReply, RowText};
use std::alloc::Global;
use std::sync::Wait;
use thiserror::Error;
use trace_model::{Fault, Reply};

/// The largest number of bytes of one read.
const PIECE: usize = 4096;

/// How a session ended: at the end of its input, or with this fault, which was sent.
#[derive(Clone, Copy, Debug, PartialEq, Eq)]
pub enum Ended {
    Input,
    Frame(Fault),
}

/// Why a session broke off.
#[derive(Clone, Copy, Debug, PartialEq, Eq, Error)]
pub enum ServeFault {
    /// The source failed.
    #[error("a read failed")]
    Read,
    /// The sink failed.
    #[error("a write failed")]
    Write,
    /// An allocation failed.
    #[error("no memory")]
    Memory,
}

/// Writes all bytes, or a prefix of them if a write fails.
fn write_all<R: Wait, K: Sink>(rt: &R, sink: &mut K, bytes: &[u8]) -> Result<(), TransferFailed>
    ensures ok { OnOk result (Appends (K.written sink.old) (K.written sink.new) bytes.now) }
    ensures same { OnOk result (K.failures sink.new ≡ K.failures sink.old) }
    ensures failed { OnErr result (K.failures sink.old < K.failures sink.new) }
    ensures err { OnErr result
        ((n : ℕ) × Appends (K.written sink.old) (K.written sink.new) (take n bytes.now)) }
{
    let mut at = 0;
    while at < bytes.len() {
        at += sink.write(rt, &bytes[at..])?;
    }
    Ok(())
}

/// Writes all bytes of both slices, or a prefix of them if a write fails.
fn write_both<R: Wait, K: Sink>(
    rt: &R,
    sink: &mut K,
    first: &[u8],
    second: &[u8],
) -> Result<(), TransferFailed>
    ensures ok { OnOk result (Appends (K.written sink.old) (K.written sink.new)
        (first.now ++ second.now)) }
    ensures same { OnOk result (K.failures sink.new ≡ K.failures sink.old) }
    ensures failed { OnErr result (K.failures sink.old < K.failures sink.new) }
    ensures err { OnErr result ((n : ℕ) × Appends (K.written sink.old) (K.written sink.new)
        (take n (first.now ++ second.now))) }
{
    write_all(rt, sink, first)?;
    write_all(rt, sink, second)
}

/// Writes the text of rows piece by piece, or a prefix of it if a write fails. Does not allocate.
fn write_rows<R: Wait, K: Sink>(rt: &R, sink: &mut K, rows: RowText) -> Result<(), TransferFailed>
    ensures ok { OnOk result (Appends (K.written sink.old) (K.written sink.new) rows) }
    ensures same { OnOk result (K.failures sink.new ≡ K.failures sink.old) }
    ensures failed { OnErr result (K.failures sink.old < K.failures sink.new) }
    ensures err { OnErr result ((n : ℕ) × Appends (K.written sink.old) (K.written sink.new)
        (take n rows)) }
{
    let mut left = rows;
    let mut piece = Piece::new();
    for _ in rt.forever() {
        if !left.next(&mut piece) {
            return Ok(());
        }
        write_all(rt, sink, piece.bytes())?;
    }
    unreachable!()
}

/// Writes a report: both slices, and then the text of its rows piece by piece; or a prefix of all
/// if a write fails. Does not allocate.
fn write_pieces<R: Wait, K: Sink>(
    rt: &R,
    sink: &mut K,
    head: &[u8],
    first_line: &[u8],
    rows: RowText,
) -> Result<(), TransferFailed>
    ensures ok { OnOk result (Appends (K.written sink.old) (K.written sink.new)
        (head.now ++ first_line.now ++ rows)) }
    ensures same { OnOk result (K.failures sink.new ≡ K.failures sink.old) }
    ensures failed { OnErr result (K.failures sink.old < K.failures sink.new) }
    ensures err { OnErr result ((n : ℕ) × Appends (K.written sink.old) (K.written sink.new)
        (take n (head.now ++ first_line.now ++ rows))) }
{
    write_both(rt, sink, head, first_line)?;
    write_rows(rt, sink, rows)
}

/// Writes the reply with a report like `reply_with`. After its first byte nothing is allocated.
fn reply_with_report<R: Wait, K: Sink>(
    rt: &R,
    alloc: Global,
    sink: &mut K,
    report: ReportReply,
) -> Result<(), ServeFault>
    ensures ok { OnOk result (Appends (K.written sink.old) (K.written sink.new)
        (reply_frame (reply_in (Answered.Report report)))) }
    ensures err { OnErr result ((n : ℕ) × Appends (K.written sink.old) (K.written sink.new)
        (take n (reply_frame (reply_in (Answered.Report report))))) }
    ensures same { OnOk result (K.failures sink.new ≡ K.failures sink.old) }
    ensures counted { IfErr result
        (λ fault. IsCountedFault fault (K.failures sink.old) (K.failures sink.new)) }
{
    let ReportReply {
        question,
        bytes,
        first_line,
        rows,
    } = report;
    let Ok(head) = report_head(alloc, question, bytes) else {
        let _ = sink.send(rt);
        return Err(ServeFault::Memory);
    };
    match write_pieces(rt, sink, head.as_slice(), first_line.as_slice(), rows) {
        Ok(()) => Ok(()),
        Err(TransferFailed) => Err(ServeFault::Write),
    }
}

/// Writes a reply that is in memory like `reply_with`. The text of a report is not copied.
fn reply_with_whole<R: Wait, K: Sink>(
    rt: &R,
    alloc: Global,
    sink: &mut K,
    reply: Reply,
) -> Result<(), ServeFault>
    requires { IsReply reply }
    ensures ok { OnOk result (Appends (K.written sink.old) (K.written sink.new)
        (reply_frame reply)) }
    ensures err { OnErr result
        ((n : ℕ) × Appends (K.written sink.old) (K.written sink.new) (take n (reply_frame reply))) }
    ensures same { OnOk result (K.failures sink.new ≡ K.failures sink.old) }
    ensures counted { IfErr result
        (λ fault. IsCountedFault fault (K.failures sink.old) (K.failures sink.new)) }
{
    let Ok(head) = encode_head(alloc, &reply) else {
        let _ = sink.send(rt);
        return Err(ServeFault::Memory);
    };
    match write_both(rt, sink, &head, frame_text(&reply)) {
        Ok(()) => Ok(()),
        Err(TransferFailed) => Err(ServeFault::Write),
    }
}

/// Writes a reply, or a prefix of it if a write fails. If its head cannot be allocated, the earlier
/// replies are sent.
fn reply_with<R: Wait, K: Sink>(
    rt: &R,
    alloc: Global,
    sink: &mut K,
    answered: Answered,
) -> Result<(), ServeFault>
    requires { IsReply (reply_in answered) }
    ensures ok { OnOk result (Appends (K.written sink.old) (K.written sink.new)
        (reply_frame (reply_in answered))) }
    ensures err { OnErr result ((n : ℕ) × Appends (K.written sink.old) (K.written sink.new)
        (take n (reply_frame (reply_in answered)))) }
    ensures same { OnOk result (K.failures sink.new ≡ K.failures sink.old) }
    ensures counted { IfErr result
        (λ fault. IsCountedFault fault (K.failures sink.old) (K.failures sink.new)) }
{
    match answered {
        Answered::Whole(reply) => reply_with_whole(rt, alloc, sink, reply),
        Answered::Report(report) => reply_with_report(rt, alloc, sink, report),
    }
}

/// Calls each whole request of the reader and writes its reply, and then the fault if there is one.
/// Each reply is written whole before the next request is called.
fn answer_all<R: Wait, K: Sink, C: Calls>(
    rt: &R,
    alloc: Global,
    reader: &mut FrameReader,
    sink: &mut K,
    calls: &mut C,
) -> Result<Option<Fault>, ServeFault>
    requires { reader.old.returned ≡ None }
    ensures ok { IfOk result (λ fault. AnswersRequests C.steps
        (between calls.old reader.old (K.written sink.old))
        (between calls.new reader.new (K.written sink.new)) fault) }
    ensures err { OnErr result (BreaksOff C.steps
        (between calls.old reader.old (K.written sink.old)) calls.new (K.written sink.new)) }
    ensures same { OnOk result (K.failures sink.new ≡ K.failures sink.old) }
    ensures counted { IfErr result
        (λ fault. IsCountedFault fault (K.failures sink.old) (K.failures sink.new)) }
{
    loop {
        match reader.next() {
            Ok(Some(request)) => {
                let reply = calls.call(request);
                reply_with(rt, alloc, sink, reply)?;
            }
            Ok(None) => return Ok(None),
            Err(fault) => {
                reply_with(rt, alloc, sink, Answered::Whole(Reply::Fault(fault)))?;
                return Ok(Some(fault));
            }
        }
    }
}

/// Sends the bytes that the sink still buffers, at the end of a session.
fn conclude<R: Wait, K: Sink>(rt: &R, sink: &mut K, ended: Ended) -> Result<Ended, ServeFault>
    ensures kept { Keeps (K.written sink.old) (K.written sink.new) }
    ensures ok { IfOk result (λ e. (e ≡ ended) × (K.sent sink.new ≡ K.written sink.new)) }
    ensures err { IfErr result (λ fault. (fault ≡ Write)
        × (K.failures sink.old < K.failures sink.new)) }
{
    match sink.send(rt) {
        Ok(()) => Ok(ended),
        Err(TransferFailed) => Err(ServeFault::Write),
    }
}

/// Serves a session: reads requests from the source, calls them in order, and writes the replies to
/// the sink, until the input ends or has a fault. The fault is written last. Each reply is written
/// whole before the next request is called. Buffered bytes are sent before each read, which may
/// wait. A read takes at most 4,096 bytes, and nothing is read after the piece with the first
/// fault. A frame is truncated only if the source is at its end.
///
/// # Errors
///
/// Calls that were made are not undone.
/// - `Read` if the source failed in this call. The bytes read so far have no fault, and all replies
///   to them were written and sent.
/// - `Write` if the sink failed in this call, `Memory` if an allocation failed. A prefix of the
///   replies was written, and at most one request was called whose reply is not whole.
pub fn serve<R: Wait, S: Source, K: Sink, C: Calls>(
    rt: &R,
    alloc: Global,
    source: &mut S,
    sink: &mut K,
    calls: &mut C,
) -> Result<Ended, ServeFault>
    ensures served { ServesText C.steps
        (session_point (S.left source.old) (K.written sink.old) calls.old)
        (session_point (S.left source.new) (K.written sink.new) calls.new)
        (K.sent sink.new) result }
    ensures counted { Counts result (S.failures source.old) (S.failures source.new)
        (K.failures sink.old) (K.failures sink.new) }
{
    let mut reader = FrameReader::new(alloc);
    let mut buffer = [0u8; PIECE];
    for _ in rt.forever() {
        let Ok(()) = sink.send(rt) else {
            return Err(ServeFault::Write);
        };
        let Ok(len) = source.read(rt, &mut buffer) else {
            return Err(ServeFault::Read);
        };
        if len == 0 {
            reader.finish();
            if let Some(last) = answer_all(rt, alloc, &mut reader, sink, calls)? {
                return conclude(rt, sink, Ended::Frame(last));
            }
            return conclude(rt, sink, Ended::Input);
        }
        let Ok(()) = reader.feed(&buffer[..len]) else {
            return Err(ServeFault::Memory);
        };
        if let Some(fault) = answer_all(rt, alloc, &mut reader, sink, calls)? {
            return conclude(rt, sink, Ended::Frame(fault));
        }
    }
    unreachable!()
}
