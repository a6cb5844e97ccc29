//! A session over a socket.
use sequencer::Calls;
use sessions::{Ended, ReadSource, ServeFault, WriteSink, serve};
use std::alloc::Global;
use std::io::Read;
use std::net::{Shutdown, TcpStream};
use std::sync::Wait;
use std::time::Duration;

/// The number of bytes dropped per read.
const PIECE: usize = 4096;

/// The largest number of such reads.
const PIECES: usize = 1024;

/// Closes the write side, and reads and drops what the peer still sends, up to 4 MiB. Without this
/// the close could reset the connection before the peer has read the last reply.
fn linger(stream: &TcpStream) {
    if stream.shutdown(Shutdown::Write).is_err() {
        return;
    }
    let mut dropped = [0u8; PIECE];
    for _ in 0..PIECES {
        match (&mut &*stream).read(&mut dropped) {
            Ok(0) | Err(_) => return,
            Ok(_) => {}
        }
    }
}

/// Lets each read and each write of the stream fail after this number of seconds without a byte, if
/// it is not 0.
fn limit_idleness(stream: &TcpStream, seconds: u32) {
    if seconds > 0 {
        let time = Some(Duration::from_secs(u64::from(seconds)));
        // If one of these fails, the stream may be idle for longer.
        let _ = stream.set_read_timeout(time);
        let _ = stream.set_write_timeout(time);
    }
}

/// Answers the requests of the stream until it ends, has a fault, or is idle for `idle` seconds (0:
/// for any time). Returns how the session ended.
pub fn handle_connection<R: Wait, C: Calls>(
    rt: &R,
    alloc: Global,
    stream: &TcpStream,
    idle: u32,
    calls: &mut C,
) -> Result<Ended, ServeFault> {
    // If this fails replies are delayed, but right.
    let _ = stream.set_nodelay(true);
    limit_idleness(stream, idle);
    let mut source = ReadSource::new(stream);
    let mut sink = WriteSink::new(stream);
    let ended = serve(rt, alloc, &mut source, &mut sink, calls);
    if let Ok(Ended::Frame(_)) = ended {
        linger(stream);
    }
    ended
}
