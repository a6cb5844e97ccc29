//! Tests of the server over sockets.

use crate::fixtures::{
    ANSWER, ASKED, LIMIT, OPENED, REPLIES, REPORT, REPORT_HEAD, REQUESTS, SETTLED, STATUS, WRITE,
};
use crate::meeting::Meeting;
use crate::workers::TasksMeet;
use findings::{Hold, RunOn};
use log::sink::Discard;
use question_server::{Service, run_server};
use std::alloc::Global;
use std::hash::RandomState;
use std::io::{self, Read, Write};
use std::net::{Net, SocketAddr, TcpListener, TcpStream};
use std::process::Abort;
use std::sync::Wait;
use std::sync::atomic::AtomicU64;
use std::test::*;
use std::thread;
use std::thread::Threads;
use std::time::Clock;

/// Serves `sessions` sessions with two workers. Returns the number of served sessions.
fn serve_sessions<R: Threads + Wait + Clock + Copy + Send + Sync, H: Hold + Sync>(
    rt: R,
    alloc: Global,
    state: RandomState,
    listener: &TcpListener,
    sessions: u32,
    hold: &H,
) -> Option<u64> {
    let service = Service {
        workers: 2,
        sessions,
        limit: LIMIT,
        idle: 0,
    };
    let closing = AtomicU64::new(0);
    run_server(
        rt, alloc, state, listener, service, hold, &closing, &Discard,
    )
    .ok()
}

/// Reads the body of the next reply.
fn reply(alloc: Global, mut stream: &TcpStream) -> io::Result<Vec<u8>> {
    let mut head = [0u8; 4];
    stream.read_exact(&mut head)?;
    let mut body = vec![in alloc; 0u8; u32::from_be_bytes(head) as usize]?;
    stream.read_exact(&mut body)?;
    Ok(body)
}

/// Sends the request. Returns the body of the reply.
fn reply_to(alloc: Global, mut stream: &TcpStream, request: &[u8]) -> io::Result<Vec<u8>> {
    stream.write_all(request)?;
    reply(alloc, stream)
}

/// Sends these requests. Asserts that these are their replies.
fn exchange(
    rt: &impl Abort,
    alloc: Global,
    mut stream: &TcpStream,
    requests: &[u8],
    replies: &[u8],
) -> io::Result<()> {
    stream.write_all(requests)?;
    let mut read = vec![in alloc; 0u8; replies.len()]?;
    stream.read_exact(&mut read)?;
    assert_eq!(rt; read.as_slice(), replies, "replies to {requests:?}");
    Ok(())
}

/// Requests the answer of question 0 until it is not pending. Returns the body of that reply.
fn poll_answer(alloc: Global, stream: &TcpStream) -> io::Result<Vec<u8>> {
    for _ in 0..100_000u32 {
        let body = reply_to(alloc, stream, &ANSWER)?;
        if body.first().copied() != Some(68) {
            return Ok(body);
        }
        thread::yield_now();
    }
    Err(io::Error::from(io::ErrorKind::TimedOut))
}

/// Runs a whole session. Asserts each reply.
fn whole_session<R: Net<Stream = TcpStream> + Abort>(
    rt: &R,
    alloc: Global,
    address: SocketAddr,
) -> io::Result<()> {
    let stream = TcpStream::connect(rt, address)?;
    exchange(rt, alloc, &stream, &REQUESTS[..ASKED], &REPLIES[..OPENED])?;
    let reply = poll_answer(alloc, &stream)?;
    let report = reply.as_slice().strip_prefix(&REPORT_HEAD[4..]);
    assert_eq!(rt; report, Some(REPORT.as_bytes()));
    exchange(rt, alloc, &stream, &STATUS, &SETTLED)
}

/// The clients that connect to a server.
#[derive(Clone, Copy, Debug)]
enum Peers {
    WholeSession,
    Seventeen,
    OneClosesEarly,
}

impl Peers {
    /// Returns the number of sessions that the clients use.
    fn sessions(self) -> u32 {
        match self {
            Peers::WholeSession => 1,
            Peers::Seventeen => 17,
            Peers::OneClosesEarly => 2,
        }
    }

    /// Runs the clients. Asserts each reply.
    fn hold<R: Net<Stream = TcpStream> + Abort>(
        self,
        rt: &R,
        alloc: Global,
        address: SocketAddr,
    ) -> io::Result<()> {
        match self {
            Peers::WholeSession => whole_session(rt, alloc, address),
            Peers::Seventeen => seventeen_connections_in_turn(rt, alloc, address),
            Peers::OneClosesEarly => one_closes_early(rt, alloc, address),
        }
    }
}

/// Runs a server and these clients. Asserts that each reply is right, and that the server serves
/// exactly the sessions of the clients.
fn serves<
    R: Threads
        + Wait
        + Clock
        + Net<Listener = TcpListener, Stream = TcpStream>
        + Abort
        + Copy
        + Send
        + Sync,
    H: Hold + Sync,
>(rt: R, alloc: Global, state: RandomState, hold: &H, peers: Peers) -> Result<(), Fail> {
    let listener = TcpListener::bind(&rt, "127.0.0.1:0")?;
    let address = listener.local_addr()?;
    let shared = &listener;
    let sessions = peers.sessions();
    thread::scope(thread::scope_env(), &rt, |scope| {
        let server = scope.spawn(move || serve_sessions(rt, alloc, state, shared, sessions, hold));
        let failed = peers.hold(&rt, alloc, address).err();
        assert_eq!(rt; failed.map(|error| error.kind()), None, "{peers:?}");
        match server {
            Ok(server) => assert_eq!(rt; server.join(&rt), Some(u64::from(sessions)), "{peers:?}"),
            Err(_) => panic!(rt; "{peers:?}: no thread for the server"),
        }
    });
    Ok(())
}

#[test]
fn client_over_a_socket(rt: HostRuntime) -> Result<(), Fail> {
    serves(
        rt,
        rt.alloc(),
        RandomState::new(&rt)?,
        &RunOn,
        Peers::WholeSession,
    )
}

#[test]
fn two_workers_compute_concurrently(rt: HostRuntime) -> Result<(), Fail> {
    let hold = TasksMeet {
        meeting: Meeting::new(),
    };
    serves(
        rt,
        rt.alloc(),
        RandomState::new(&rt)?,
        &hold,
        Peers::WholeSession,
    )?;
    let (first, second) = hold.meeting.came();
    assert!(rt; first > 0 && second > 0, "calls {first} and {second}");
    assert!(rt; !hold.meeting.gave_up(), "a worker waits in vain");
    Ok(())
}

/// Returns a new connection after its first request was answered.
fn answered<R: Net<Stream = TcpStream>>(
    rt: &R,
    alloc: Global,
    address: SocketAddr,
) -> io::Result<TcpStream> {
    let stream = TcpStream::connect(rt, address)?;
    reply_to(alloc, &stream, &STATUS)?;
    Ok(stream)
}

/// Asserts that the server closes a new connection without a reply.
fn is_closed_without_reply<R: Net<Stream = TcpStream> + Abort>(
    rt: &R,
    address: SocketAddr,
) -> io::Result<()> {
    let further = TcpStream::connect(rt, address)?;
    let mut buffer = [0u8; 8];
    assert_eq!(rt;
        (&mut &further).read(&mut buffer)?,
        0,
        "bytes of a refused session"
    );
    Ok(())
}

/// Opens sixteen sessions, and asserts that the server closes one more connection. The sessions end
/// when the function returns.
fn sixteen_exclude_another<R: Net<Stream = TcpStream> + Abort>(
    rt: &R,
    alloc: Global,
    address: SocketAddr,
) -> io::Result<()> {
    let mut open = Vec::new(alloc);
    for _ in 0..16u32 {
        open.push(answered(rt, alloc, address)?)?;
    }
    is_closed_without_reply(rt, address)
}

/// Asserts that the server refuses a connection while sixteen sessions are open, and answers
/// another one after they are closed.
fn seventeen_connections_in_turn<R: Net<Stream = TcpStream> + Abort>(
    rt: &R,
    alloc: Global,
    address: SocketAddr,
) -> io::Result<()> {
    sixteen_exclude_another(rt, alloc, address)?;
    for _ in 0..100_000u32 {
        if answered(rt, alloc, address).is_ok() {
            return Ok(());
        }
        thread::yield_now();
    }
    Err(io::Error::from(io::ErrorKind::TimedOut))
}

#[test]
fn seventeen_connections(rt: HostRuntime) -> Result<(), Fail> {
    serves(
        rt,
        rt.alloc(),
        RandomState::new(&rt)?,
        &RunOn,
        Peers::Seventeen,
    )
}

/// The greatest number of writes that the other client offers.
const MOST_WRITES: u32 = 10_000;

/// One client offers a write and closes its socket without reading. Another client offers writes
/// until one is placed above the number of its own earlier writes, which shows that the first
/// client's write was accepted. Fails with `TimedOut` after `MOST_WRITES` writes.
fn one_closes_early<R: Net<Stream = TcpStream>>(
    rt: &R,
    alloc: Global,
    address: SocketAddr,
) -> io::Result<()> {
    let closed = TcpStream::connect(rt, address)?;
    (&mut &closed).write_all(&WRITE)?;
    drop(closed);
    let stream = TcpStream::connect(rt, address)?;
    for earlier in 0..MOST_WRITES {
        if place_of_a_write(alloc, &stream)? > earlier {
            return Ok(());
        }
    }
    Err(io::Error::from(io::ErrorKind::TimedOut))
}

/// Offers a write. Returns its place.
fn place_of_a_write(alloc: Global, stream: &TcpStream) -> io::Result<u32> {
    match reply_to(alloc, stream, &WRITE)?.as_slice() {
        [65, a, b, c, d] => Ok(u32::from_be_bytes([*a, *b, *c, *d])),
        _ => Err(io::Error::from(io::ErrorKind::InvalidData)),
    }
}

#[test]
fn a_client_that_closes_without_reading(rt: HostRuntime) -> Result<(), Fail> {
    serves(
        rt,
        rt.alloc(),
        RandomState::new(&rt)?,
        &RunOn,
        Peers::OneClosesEarly,
    )
}
