//! The program `goodlockd`: reads the command line and runs its command. `serve` is
//! `question_server::run_server`; the other commands are in the crate `commands`.
#![tactic(auto)]

ghost use Rattle.command_line.specs.CommandLine.{IsLimitNumber, IsInClosedRange};

use command_line::{Invocation, parse, tell, words_of};
use commands::{
    Status, arguments, check_files, explain_named, final_status, offline_file, replay_files,
    script_file,
};
use findings::RunOn;
use log::Log;
use log::sink::Console;
use question_server::{ServerError, Service, close_at_end, run_server};
use std::alloc::{AllocError, Global};
use std::hash::RandomState;
use std::net::TcpListener;
use std::process::ExitCode;
use std::sync::atomic::AtomicU64;
use std::sync::{Arc, Wait};
use std::thread::Threads;
use std::time::Clock;
use std::{io, thread};

/// Reports on standard error that the address cannot be listened on.
fn cannot_listen(rt: &HostRuntime, address: &str) -> io::Result<Status> {
    eprintln!(rt; "cannot listen on {address}")?;
    Ok(Status::Error)
}

/// Returns a listener at the address, or `None` after an error message, with the system's reason,
/// if there is none.
fn listen(rt: &HostRuntime, address: &str) -> io::Result<Option<TcpListener>> {
    match TcpListener::bind(rt, address) {
        Ok(listener) => Ok(Some(listener)),
        Err(error) if error.kind() == io::ErrorKind::OutOfMemory => Err(error),
        Err(error) => {
            cannot_listen(rt, address)?;
            eprintln!(rt; "{error}")?;
            Ok(None)
        }
    }
}

/// Runs the server, and prints the number of sessions at its end.
fn serve<T: Threads + Wait + Clock + Copy + Send + Sync, L: Log + Sync>(
    rt: &HostRuntime,
    threads: T,
    address: &str,
    listener: &TcpListener,
    service: Service,
    closing: &AtomicU64,
    log: &L,
) -> io::Result<Status>
    requires limit { IsLimitNumber service.limit }
    requires workers { IsInClosedRange 1 16 service.workers }
{
    let state = RandomState::new(rt)?;
    match run_server(
        threads,
        rt.alloc(),
        state,
        listener,
        service,
        &RunOn,
        closing,
        log,
    ) {
        Ok(sessions) => {
            println!(rt; "served {sessions}")?;
            Ok(Status::Done)
        }
        Err(ServerError::Listen) => cannot_listen(rt, address),
        Err(ServerError::NotMade) => Err(AllocError.into()),
    }
}

/// Starts a thread that sets `closing` to 1 when standard input ends. It ends with the process.
fn watch_input<T: Threads>(
    rt: &HostRuntime,
    threads: &T,
    closing: &Arc<AtomicU64, Global>,
) -> io::Result<()> {
    let shared = Arc::try_clone(closing)?;
    let mut input = rt.stdin();
    let watch = move || close_at_end(&mut input, &shared);
    match thread::spawn(threads, watch) {
        Ok(_) => Ok(()),
        Err(_) => Err(AllocError.into()),
    }
}

/// Listens on the address, prints the local address, and runs the server.
fn serve_at<T: Threads + Wait + Clock + Copy + Send + Sync>(
    rt: &HostRuntime,
    threads: T,
    address: &str,
    service: Service,
    stop_at_eof: bool,
    log: bool,
) -> io::Result<Status>
    requires limit { IsLimitNumber service.limit }
    requires workers { IsInClosedRange 1 16 service.workers }
{
    let Some(listener) = listen(rt, address)? else {
        return Ok(Status::Error);
    };
    let local = listener.local_addr()?;
    println!(rt; "listening {local}")?;
    let closing = Arc::new(rt.alloc(), AtomicU64::new(0))?;
    if stop_at_eof {
        // Else the server would not look whether the input has ended until the next connection.
        listener.set_nonblocking(true)?;
        watch_input(rt, &threads, &closing)?;
    }
    let console = if log { Some(Console(*rt)) } else { None };
    let log = console.with_target("goodlockd");
    serve(rt, threads, address, &listener, service, &closing, &log)
}

/// Returns the words of the command line, or `None` after an error message if one is not UTF-8.
fn words(rt: &HostRuntime) -> io::Result<Option<Vec<String>>> {
    match arguments(rt) {
        Ok(words) => Ok(Some(words)),
        Err(error) if error.kind() == io::ErrorKind::InvalidData => {
            eprintln!(rt; "a word of the command line is not UTF-8")?;
            Ok(None)
        }
        Err(error) => Err(error),
    }
}

/// Runs the command line.
fn run<T: Threads + Wait + Clock + Copy + Send + Sync>(
    rt: &HostRuntime,
    threads: T,
) -> io::Result<Status> {
    let Some(arguments) = words(rt)? else {
        return Ok(Status::NotUnderstood);
    };
    let words = words_of(rt.alloc(), &arguments)?;
    let invocation = match parse(rt.alloc(), &words) {
        Ok(invocation) => invocation,
        Err(refused) => {
            let is_help = tell(rt, refused)?;
            return Ok(if is_help {
                Status::Done
            } else {
                Status::NotUnderstood
            });
        }
    };
    match invocation {
        Invocation::Serve {
            address,
            workers,
            sessions,
            limit,
            idle,
            stop_at_eof,
            log,
        } => {
            let service = Service {
                workers,
                sessions,
                limit,
                idle,
            };
            serve_at(rt, threads, address, service, stop_at_eof, log)
        }
        Invocation::Script { file, limit } => script_file(rt, file, limit),
        Invocation::Offline { file, bound } => offline_file(rt, &threads, file, bound),
        Invocation::Replay { trace, witness } => replay_files(rt, trace, witness),
        Invocation::Explain { file, bound, cycle } => {
            explain_named(rt, &threads, file, bound, cycle)
        }
        Invocation::Check { trace, file } => check_files(rt, &threads, trace, file),
    }
}

fn main(rt: HostRuntime) -> ExitCode {
    ExitCode::from(final_status(&rt, run(&rt, rt)).code())
}
