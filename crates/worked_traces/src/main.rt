//! Runs the worked traces in its folder `data` by the functions of the commands, and compares their
//! exit status and output with the expected files. It also passes each witness of a report to the
//! replay checker, and explains each cycle of a report and passes that to the checker. Each folder
//! of `data` is a command; `sessions` is a run of sessions. Start with `main`.
#![tactic(auto)]

ghost use Rattle.command_line.specs.CommandLine.{HasNumbersInRange};

mod case;
mod command_runs;
mod explanations;
mod session_cases;
mod witnesses;

use anyhow::Result;
use case::{Case, names_in};
use command_line::{Invocation, parse};
use command_runs::{Outcome, run};
use commands::Status;
use explanations::{are_explained, are_valid};
use session_cases::run_sessions;
use std::fs;
use std::process::ExitCode;
use std::thread::Threads;
use trace_model::Bound;
use witnesses::are_accepted;

/// Returns what differs between the outcome and the expected files of the case, or `None` if
/// nothing does.
fn difference_in(
    rt: &HostRuntime,
    case: Case<'_>,
    outcome: &Outcome,
) -> Result<Option<&'static str>> {
    let status = case.bytes(rt, "status")?;
    let code = outcome.status.code();
    if status.trim_ascii() != format!(in rt.alloc(); "{code}")?.as_bytes() {
        return Ok(Some("its exit status"));
    }
    if outcome.out != case.bytes(rt, "out")? {
        return Ok(Some("its output"));
    }
    if outcome.err != case.bytes(rt, "err")? {
        return Ok(Some("its errors"));
    }
    Ok(None)
}

/// Checks a second way to the same answer: of a report, its witnesses and the explanations of its
/// cycles; of an explanation, its check. Returns what is wrong, or `None` if nothing is.
fn fault_in_other_ways<T: Threads + Sync>(
    rt: &HostRuntime,
    threads: &T,
    invocation: &Invocation<'_>,
    outcome: &Outcome,
) -> Result<Option<&'static str>>
    requires { HasNumbersInRange invocation.now }
{
    match invocation {
        Invocation::Offline { file, bound } if outcome.status == Status::Done => {
            let trace = fs::read(rt, *file)?;
            let Some(bound) = Bound::new(*bound as u8) else {
                unreachable!()
            };
            if !are_accepted(rt, &trace, &outcome.out)? {
                return Ok(Some("a witness"));
            }
            let is_right = are_explained(rt, threads, &trace, bound, &outcome.out)?;
            Ok((!is_right).then_some("an explanation"))
        }
        Invocation::Explain { file, .. } if outcome.status == Status::Done => {
            let is_right = are_valid(rt, threads, &fs::read(rt, *file)?, &outcome.out)?;
            Ok((!is_right).then_some("the check of its output"))
        }
        _ => Ok(None),
    }
}

/// Runs a case of sessions. Returns what is wrong, or `None` if nothing is.
fn fault_in_sessions(rt: &HostRuntime, case: Case<'_>) -> Result<Option<&'static str>> {
    let out = run_sessions(rt, &case.bytes(rt, "in")?)?;
    let outcome = Outcome {
        status: Status::Done,
        out,
        err: Vec::new(rt.alloc()),
    };
    difference_in(rt, case, &outcome)
}

/// Runs a parsed command line. Returns what is wrong, or `None` if nothing is.
fn fault_in_invocation<T: Threads + Sync>(
    rt: &HostRuntime,
    threads: &T,
    case: Case<'_>,
    invocation: &Invocation<'_>,
) -> Result<Option<&'static str>>
    requires { HasNumbersInRange invocation.now }
{
    let outcome = run(rt, threads, invocation)?;
    match difference_in(rt, case, &outcome)? {
        Some(fault) => Ok(Some(fault)),
        None => fault_in_other_ways(rt, threads, invocation, &outcome),
    }
}

/// Runs a case of a command by the words of its command line. Returns what is wrong, or `None` if
/// nothing is.
fn fault_in_command<T: Threads + Sync>(
    rt: &HostRuntime,
    threads: &T,
    case: Case<'_>,
    line: &[String],
) -> Result<Option<&'static str>> {
    let mut words = Vec::new(rt.alloc());
    for word in line {
        words.push(word.as_str())?;
    }
    fault_in_invocation(rt, threads, case, &parse(rt.alloc(), &words)?)
}

fn fault_in_case<T: Threads + Sync>(
    rt: &HostRuntime,
    threads: &T,
    case: Case<'_>,
) -> Result<Option<&'static str>> {
    if case.folder == "sessions" {
        fault_in_sessions(rt, case)
    } else {
        fault_in_command(rt, threads, case, &case.words(rt)?)
    }
}

/// The number of cases that were run, and the number of wrong ones.
#[derive(Clone, Copy)]
struct Counts {
    cases: u32,
    wrong: u32,
}

impl Counts {
    /// Runs a case, and prints whether it is right.
    fn run<T: Threads + Sync>(
        &mut self,
        rt: &HostRuntime,
        threads: &T,
        case: Case<'_>,
    ) -> Result<()> {
        let Case { folder, name } = case;
        self.cases = self.cases.saturating_add(1);
        match fault_in_case(rt, threads, case)? {
            None => println!(rt; "{folder}/{name} ok")?,
            Some(fault) => {
                self.wrong = self.wrong.saturating_add(1);
                println!(rt; "{folder}/{name} wrong: {fault}")?;
            }
        }
        Ok(())
    }

    /// Runs the cases of a folder, in the order of their names.
    fn run_folder<T: Threads + Sync>(
        &mut self,
        rt: &HostRuntime,
        threads: &T,
        folder: &str,
    ) -> Result<()> {
        for name in &names_in(rt, folder)? {
            let name = name.as_str();
            self.run(rt, threads, Case { folder, name })?;
        }
        Ok(())
    }
}

fn main(rt: HostRuntime) -> Result<ExitCode> {
    let mut counts = Counts { cases: 0, wrong: 0 };
    for folder in [
        "check", "explain", "offline", "replay", "script", "sessions",
    ] {
        counts.run_folder(&rt, &rt, folder)?;
    }
    let Counts { cases, wrong } = counts;
    println!(rt; "{cases} cases, {wrong} wrong")?;
    Ok(ExitCode::from(u8::from(wrong > 0)))
}
