//! A session over a book.
ghost use Rattle.sessions.specs.Books.{ServedByMachine};
ghost use Rattle.sessions.specs.Serving.{session_point};
ghost use Rattle.sessions.specs.Serving.{Counts};

use crate::ends::{Sink, Source};
use crate::serving::{Ended, ServeFault, serve};
use sequencer::Book;
use std::alloc::Global;
use std::sync::Wait;

/// Serves a session over a book: what is written is the machine's replies to the requests that were
/// read, in order, and then the fault if there is one. Part of the public API; not called by the
/// program.
///
/// # Errors
///
/// As of `serve`.
pub fn serve_book<R: Wait, S: Source, K: Sink>(
    rt: &R,
    alloc: Global,
    source: &mut S,
    sink: &mut K,
    book: &mut Book,
) -> Result<Ended, ServeFault>
    ensures served { ServedByMachine
        (session_point (S.left source.old) (K.written sink.old) book.old.state)
        (session_point (S.left source.new) (K.written sink.new) book.new.state)
        (K.sent sink.new) result }
    ensures counted { Counts result (S.failures source.old) (S.failures source.new)
        (K.failures sink.old) (K.failures sink.new) }
{
    serve(rt, alloc, source, sink, book)
}
