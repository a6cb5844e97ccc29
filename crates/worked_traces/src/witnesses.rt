//! Passes the witnesses of a report to the replay checker.
use anyhow::{Context, Result};
use commands::{NamedFile, Status, run_replay};
use std::alloc::Global;
use std::hash::RandomState;
use std::str;

/// Returns whether the checker accepts this witness of the trace.
fn is_accepted(rt: &HostRuntime, trace: &[u8], reach: &str, order: &str) -> Result<bool> {
    let alloc = rt.alloc();
    let state = RandomState::new(rt)?;
    let witness = format!(in alloc; "reach{reach}\norder{order}\n")?;
    let trace = NamedFile {
        name: "the trace",
        bytes: trace,
    };
    let witness = NamedFile {
        name: "a witness",
        bytes: witness.as_bytes(),
    };
    let mut out = Vec::new(alloc);
    let mut err = Vec::new(alloc);
    let status = run_replay(alloc, state, trace, witness, &mut out, &mut err);
    Ok(status == Status::Done && out.as_slice() == b"reaches\n".as_slice())
}

/// Adds the place at the end of a member's line to `reach`, if there is one.
fn push_place(alloc: Global, reach: &mut String, line: &str) -> Result<()> {
    if let Some((_, place)) = line.rsplit_once(" place ") {
        reach.push_str(&format!(in alloc; " {place}")?)?;
    }
    Ok(())
}

/// Returns whether the checker accepts each witness in the report on the trace.
pub(crate) fn are_accepted(rt: &HostRuntime, trace: &[u8], report: &[u8]) -> Result<bool> {
    let alloc = rt.alloc();
    let report = str::from_utf8(report).ok().context("a report in text")?;
    let mut reach = String::new(alloc);
    for line in report.lines() {
        if let Some(order) = line.strip_prefix("  witness") {
            if !is_accepted(rt, trace, &reach, order)? {
                return Ok(false);
            }
        } else if line.starts_with("  thread ") {
            push_place(alloc, &mut reach, line)?;
        } else {
            reach.clear();
        }
    }
    Ok(true)
}
