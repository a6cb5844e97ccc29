//! Explains the cycles of a report, and passes the explanations to the checker.
use crate::command_runs::{checked, explained};
use anyhow::{Context, Result};
use commands::{NamedFile, Status};
use std::str;
use std::thread::Threads;
use trace_model::Bound;

/// Returns whether the checker accepts all cycles in the text.
pub(crate) fn are_valid<T: Threads + Sync>(
    rt: &HostRuntime,
    threads: &T,
    trace: &[u8],
    text: &[u8],
) -> Result<bool> {
    let trace = NamedFile {
        name: "the trace",
        bytes: trace,
    };
    let file = NamedFile {
        name: "the cycles",
        bytes: text,
    };
    Ok(checked(rt, threads, trace, file)?.status == Status::Done)
}

/// Returns whether `explain` prints the first line and the rows of the report, and the checker
/// accepts what it prints.
pub(crate) fn are_explained<T: Threads + Sync>(
    rt: &HostRuntime,
    threads: &T,
    trace: &[u8],
    bound: Bound,
    report: &[u8],
) -> Result<bool> {
    let trace = NamedFile {
        name: "the trace",
        bytes: trace,
    };
    let outcome = explained(rt, threads, trace, bound, &None)?;
    let report = str::from_utf8(report).ok().context("a report in text")?;
    let text = str::from_utf8(&outcome.out).ok().context("cycles in text")?;
    let mut rows = String::new(rt.alloc());
    for line in text.lines() {
        if line.starts_with("question")
            || line.starts_with("cycle")
            || line.starts_with("  thread")
            || line.starts_with("  witness")
        {
            rows.push_str(line)?;
            rows.push_str("\n")?;
        }
    }
    Ok(rows.as_str() == report && are_valid(rt, threads, trace.bytes, &outcome.out)?)
}
