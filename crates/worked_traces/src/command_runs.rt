//! Runs a case by the function of its command.
ghost use Rattle.command_line.specs.CommandLine.{HasNumbersInRange};
ghost use Rattle.sequencer.specs.Book.{IsBookLimit};

use anyhow::{Context, Result, bail};
use command_line::Invocation;
use commands::{
    NamedFile, NoProgress, Status, cycle_of, run_check, run_explain, run_offline, run_replay,
    run_script,
};
use std::alloc::Global;
use std::hash::RandomState;
use std::thread::Threads;
use std::{fs, io};
use trace_model::{Bound, Cycle};

/// The status of a command, and the bytes that it wrote to its output and its error output.
#[derive(Drop)]
pub struct Outcome {
    pub status: Status,
    pub out: Vec<u8>,
    pub err: Vec<u8>,
}

impl Outcome {
    /// Returns an outcome with the status `Error` and no output, which a run replaces.
    fn new(alloc: Global) -> Outcome {
        Outcome {
            status: Status::Error,
            out: Vec::new(alloc),
            err: Vec::new(alloc),
        }
    }

    fn script(&mut self, rt: &HostRuntime, file: &str, limit: u32) -> io::Result<()>
        requires { IsBookLimit limit }
    {
        let state = RandomState::new(rt)?;
        let bytes = fs::read(rt, file)?;
        let (out, err) = (&mut self.out, &mut self.err);
        self.status = run_script(rt.alloc(), state, file, &bytes, limit, out, err);
        Ok(())
    }

    fn offline<T: Threads + Sync>(
        &mut self,
        rt: &HostRuntime,
        threads: &T,
        file: &str,
        bound: Bound,
    ) -> io::Result<()> {
        let state = RandomState::new(rt)?;
        let bytes = fs::read(rt, file)?;
        let (out, err) = (&mut self.out, &mut self.err);
        let alloc = rt.alloc();
        self.status = run_offline(
            threads,
            alloc,
            state,
            file,
            bytes,
            bound,
            &NoProgress,
            out,
            err,
        );
        Ok(())
    }

    fn replay(&mut self, rt: &HostRuntime, trace: &str, witness: &str) -> io::Result<()> {
        let state = RandomState::new(rt)?;
        let events = fs::read(rt, trace)?;
        let order = fs::read(rt, witness)?;
        let trace = NamedFile {
            name: trace,
            bytes: &events,
        };
        let witness = NamedFile {
            name: witness,
            bytes: &order,
        };
        let (out, err) = (&mut self.out, &mut self.err);
        self.status = run_replay(rt.alloc(), state, trace, witness, out, err);
        Ok(())
    }
}

/// Returns what `explain` prints for the trace: all its cycles, or one of them.
///
/// # Errors
/// Fails if an allocation fails.
pub(crate) fn explained<T: Threads + Sync>(
    rt: &HostRuntime,
    threads: &T,
    file: NamedFile<'_>,
    bound: Bound,
    cycle: &Option<Cycle>,
) -> io::Result<Outcome> {
    let alloc = rt.alloc();
    let state = RandomState::new(rt)?;
    let mut outcome = Outcome::new(alloc);
    let (out, err) = (&mut outcome.out, &mut outcome.err);
    outcome.status = run_explain(threads, alloc, state, file, bound, cycle, out, err);
    Ok(outcome)
}

/// Returns what `check` prints for the two files.
///
/// # Errors
/// Fails if an allocation fails.
pub(crate) fn checked<T: Threads + Sync>(
    rt: &HostRuntime,
    threads: &T,
    trace: NamedFile<'_>,
    file: NamedFile<'_>,
) -> io::Result<Outcome> {
    let state = RandomState::new(rt)?;
    let mut outcome = Outcome::new(rt.alloc());
    let (out, err) = (&mut outcome.out, &mut outcome.err);
    outcome.status = run_check(threads, rt.alloc(), state, trace, file, out, err);
    Ok(outcome)
}

/// Runs `explain` over the file with this name: all cycles, or the one that the words name.
fn explain<T: Threads + Sync>(
    rt: &HostRuntime,
    threads: &T,
    file: &str,
    bound: Bound,
    words: Option<&str>,
) -> Result<Outcome> {
    let cycle = match words {
        Some(words) => Some(cycle_of(rt.alloc(), words.as_bytes())?.context("a cycle")?),
        None => None,
    };
    let bytes = fs::read(rt, file)?;
    let file = NamedFile {
        name: file,
        bytes: &bytes,
    };
    Ok(explained(rt, threads, file, bound, &cycle)?)
}

/// Runs `check` over the files with these names.
fn check<T: Threads + Sync>(
    rt: &HostRuntime,
    threads: &T,
    trace: &str,
    file: &str,
) -> io::Result<Outcome> {
    let events = fs::read(rt, trace)?;
    let cycles = fs::read(rt, file)?;
    let trace = NamedFile {
        name: trace,
        bytes: &events,
    };
    let file = NamedFile {
        name: file,
        bytes: &cycles,
    };
    checked(rt, threads, trace, file)
}

/// Runs a command line. A report is computed on threads of `threads`.
///
/// # Errors
/// Fails if a file cannot be read, an allocation fails, or the command is `serve`.
pub(crate) fn run<T: Threads + Sync>(
    rt: &HostRuntime,
    threads: &T,
    invocation: &Invocation<'_>,
) -> Result<Outcome>
    requires { HasNumbersInRange invocation.now }
{
    let mut outcome = Outcome::new(rt.alloc());
    match invocation {
        Invocation::Script { file, limit } => outcome.script(rt, file, *limit)?,
        Invocation::Offline { file, bound } => {
            let Some(bound) = Bound::new(*bound as u8) else {
                unreachable!()
            };
            outcome.offline(rt, threads, file, bound)?;
        }
        Invocation::Replay { trace, witness } => outcome.replay(rt, trace, witness)?,
        Invocation::Explain { file, bound, cycle } => {
            let Some(bound) = Bound::new(*bound as u8) else {
                unreachable!()
            };
            return explain(rt, threads, file, bound, *cycle);
        }
        Invocation::Check { trace, file } => return Ok(check(rt, threads, trace, file)?),
        Invocation::Serve { .. } => bail!("no case is a server"),
    }
    Ok(outcome)
}
