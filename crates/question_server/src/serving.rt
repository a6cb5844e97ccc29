//! The server's threads.
ghost use Rattle.std.specs.Prelude.{◌≡◌};
ghost use Rattle.sequencer.specs.Book.{IsBookLimit};
ghost use Rattle.question_server.specs.Service.{IsWorkers};

use crate::accepting::{Pause, is_of_listener};
use crate::handle_pool::HandlePool;
use crate::seats::{MAX_SEATS, Seats};
use crate::server_tasks::{DeskTasks, ServerTasks};
use crate::service::{ServerError, Service};
use crate::session_log::{log_failed_accept, log_turned_away};
use board::{BoardState, HistoryId, NewHistory};
use desk::Desk;
use findings::Hold;
use log::{Level, Log, log_enabled};
use std::alloc::Global;
use std::hash::RandomState;
use std::marker::Brand;
use std::net::{TcpListener, TcpStream};
use std::sync::atomic::{AtomicU64, Ordering};
use std::sync::{Arc, Mutex, Wait};
use std::thread::Threads;
use std::time::{Clock, Duration};
use std::{io, thread};

/// The number of looks at the open sessions before those that are left are shut down.
const LOOKS: u32 = 2500;

/// The length of a pause between two looks, in milliseconds.
const LOOK_MILLIS: u64 = 2;

/// The length of a pause after an accept that found no connection, in milliseconds.
const POLL_MILLIS: u64 = 10;

/// Waits until all sessions have ended, for at most 5 seconds. Then it shuts down those that are
/// still open.
fn end_sessions<R: Wait + Clock>(rt: &R, seats: &Mutex<Seats>) {
    for _ in 0..LOOKS {
        if seats.lock(rt).are_free() {
            return;
        }
        thread::sleep(rt, Duration::from_millis(LOOK_MILLIS));
    }
    seats.lock(rt).shut_down();
}

/// Gives the session of this stream a seat, next to the shared stream. Returns `None` if no seat is
/// free or an allocation fails.
fn seat_for<R: Wait>(
    rt: &R,
    alloc: Global,
    stream: TcpStream,
    seats: &Mutex<Seats>,
) -> Option<(Arc<TcpStream, Global>, usize)> {
    let stream = Arc::new(alloc, stream).ok()?;
    let shared = Arc::try_clone(&stream).ok()?;
    let seat = seats.lock(rt).take(shared)?;
    Some((stream, seat))
}

/// Returns the stream of an accept, or `None` after a pause if the server can accept again.
///
/// # Errors
///
/// `Listen` if the listener accepts nothing any more.
fn accepted_stream<R: Clock, L: Log>(
    rt: &R,
    accepted: io::Result<TcpStream>,
    pause: &mut Pause,
    log: &L,
) -> Result<Option<TcpStream>, ServerError> {
    match accepted {
        Ok(stream) => {
            *pause = Pause::new();
            Ok(Some(stream))
        }
        Err(error) if is_of_listener(&error) => Err(ServerError::Listen),
        Err(error) if error.kind() == io::ErrorKind::WouldBlock => {
            thread::sleep(rt, Duration::from_millis(POLL_MILLIS));
            Ok(None)
        }
        Err(error) => {
            log_failed_accept(log, &error);
            pause.pause(rt);
            Ok(None)
        }
    }
}

/// Serves up to `most` sessions, each in its own thread, and returns their number once they have
/// ended. A connection without a seat or without a thread is closed and not counted. After an
/// accept that failed for another reason than the listener it pauses, and goes on. If the server
/// must end, it accepts no more, and ends the open sessions.
fn take_sessions<R: Threads + Wait + Clock + Copy + Send + Sync, D: ServerTasks, L: Log + Sync>(
    rt: R,
    alloc: Global,
    listener: &TcpListener,
    most: u64,
    closing: &AtomicU64,
    seats: &Mutex<Seats>,
    server_tasks: &D,
    log: &L,
) -> Result<u64, ServerError> {
    thread::scope(thread::scope_env(), &rt, |scope| {
        let mut taken = 0u64;
        let mut pause = Pause::new();
        for accepted in listener.incoming() {
            if closing.load(Ordering::SeqCst) != 0 {
                break;
            }
            let Some(stream) = accepted_stream(&rt, accepted, &mut pause, log)? else {
                continue;
            };
            let Some((stream, seat)) = seat_for(&rt, alloc, stream, seats) else {
                log_turned_away(log);
                continue;
            };
            let number = taken.saturating_add(1);
            let session = move || {
                server_tasks.run_session(number, &stream);
                seats.lock(&rt).leave(seat);
            };
            if scope.spawn(session).is_err() {
                log_turned_away(log);
                seats.lock(&rt).leave(seat);
                continue;
            }
            taken = number;
            if taken == most {
                return Ok(taken);
            }
        }
        end_sessions(&rt, seats);
        Ok(taken)
    })
}

/// Runs the workers, and a thread for the log if it is on, and serves sessions. Stops the other
/// threads once the sessions have ended.
fn run_threads<R: Threads + Wait + Clock + Copy + Send + Sync, D: ServerTasks, L: Log + Sync>(
    rt: R,
    alloc: Global,
    listener: &TcpListener,
    service: Service,
    stop: &AtomicU64,
    closing: &AtomicU64,
    seats: &Mutex<Seats>,
    server_tasks: &D,
    log: &L,
) -> Result<u64, ServerError> {
    thread::scope(thread::scope_env(), &rt, |scope| {
        for _ in 0..service.workers {
            if scope.spawn(move || server_tasks.work()).is_err() {
                stop.store(1, Ordering::SeqCst);
                return Err(ServerError::NotMade);
            }
        }
        if log_enabled!(log; Level::Info)
            && scope.spawn(move || server_tasks.log_questions()).is_err()
        {
            stop.store(1, Ordering::SeqCst);
            return Err(ServerError::NotMade);
        }
        let served = take_sessions(
            rt,
            alloc,
            listener,
            u64::from(service.sessions),
            closing,
            seats,
            server_tasks,
            log,
        );
        stop.store(1, Ordering::SeqCst);
        served
    })
}

/// Runs workers and sessions at a desk.
fn serve_desk<
    N: HistoryId + Send + Sync,
    R: Threads + Wait + Clock + Copy + Send + Sync,
    H: Hold + Sync,
    L: Log + Sync,
>(
    rt: R,
    alloc: Global,
    listener: &TcpListener,
    service: Service,
    desk: &Arc<Desk<N, R, BoardState<N>>>,
    handle_pool: &Mutex<HandlePool<N>>,
    hold: &H,
    closing: &AtomicU64,
    log: &L,
) -> Result<u64, ServerError> {
    let Ok(seats) = Seats::new(alloc) else {
        return Err(ServerError::NotMade);
    };
    let stop = AtomicU64::new(0);
    let server_tasks = DeskTasks {
        rt,
        alloc,
        desk,
        handle_pool,
        hold,
        idle: service.idle,
        log,
        stop: &stop,
    };
    let seats = Mutex::new(seats);
    run_threads(
        rt,
        alloc,
        listener,
        service,
        &stop,
        closing,
        &seats,
        &server_tasks,
        log,
    )
}

/// Creates the desk over this history, and runs workers and sessions at it.
fn serve_named<
    N: HistoryId + Send + Sync,
    R: Threads + Wait + Clock + Copy + Send + Sync,
    H: Hold + Sync,
    L: Log + Sync,
>(
    rt: R,
    alloc: Global,
    state: RandomState,
    history: NewHistory,
    listener: &TcpListener,
    service: Service,
    hold: &H,
    closing: &AtomicU64,
    log: &L,
) -> Result<u64, ServerError>
    requires book { history.seen.book ≡ N.book }
    requires limit { service.limit ≡ N.limit }
    requires workers { IsWorkers service.workers }
{
    // The log has a reader of its own.
    let count = MAX_SEATS + service.workers as usize + 1;
    let Ok((desk, readers)) = Desk::<N, R, BoardState<N>>::new(
        alloc,
        state,
        rt,
        history,
        service.limit,
        count,
    ) else {
        return Err(ServerError::NotMade);
    };
    let Ok(desk) = Arc::new(alloc, desk) else {
        drop(readers);
        return Err(ServerError::NotMade);
    };
    let served = match HandlePool::new(alloc, service.workers, readers) {
        Ok(handle_pool) => {
            let handle_pool = Mutex::new(handle_pool);
            let served = serve_desk(
                rt,
                alloc,
                listener,
                service,
                &desk,
                &handle_pool,
                hold,
                closing,
                log,
            );
            drop(handle_pool);
            served
        }
        Err(fault) => Err(fault),
    };
    drop(desk);
    served
}

/// Serves the connections of the listener over one desk: one thread for each session, at most 16 at
/// a time, and one for each worker. A further connection, or one without a thread, is closed
/// without a reply and not counted. A session that is idle for `service.idle` seconds is closed.
/// After `service.sessions` sessions, or once `closing` is not 0, it accepts no more; in the second
/// case it closes what is still open after 5 seconds. It looks at `closing` after each accept. If
/// the listener does not block, an accept that finds no connection is tried again after 10
/// milliseconds.
/// Once all have ended it stops the workers and returns the number of sessions. Each worker calls
/// `hold` once per computed task. An idle worker looks for a question every two milliseconds. A
/// worker whose turn failed for lack of memory tries again after at most two seconds. An accept
/// that failed, but not by an error of the listener, is tried again after 2 milliseconds, and after
/// twice as long each further time, up to a second.
///
/// The log gets the beginning and the end of each session, the question and the end of each
/// question, each failed accept, and each connection that is closed without a session. It is
/// passed as a `log::Log` that may be off; then nothing looks at the questions.
///
/// # Errors
///
/// - `Listen` if the listener accepts nothing any more, once the open sessions have ended.
/// - `NotMade` if the desk, the claimants or the worker threads could not be created.
pub fn run_server<R: Threads + Wait + Clock + Copy + Send + Sync, H: Hold + Sync, L: Log + Sync>(
    rt: R,
    alloc: Global,
    state: RandomState,
    listener: &TcpListener,
    service: Service,
    hold: &H,
    closing: &AtomicU64,
    log: &L,
) -> Result<u64, ServerError>
    requires limit { IsBookLimit service.limit }
    requires workers { IsWorkers service.workers }
{
    serve_named::<Brand, R, H, L>(
        rt,
        alloc,
        state,
        NewHistory::new(),
        listener,
        service,
        hold,
        closing,
        log,
    )
}
