//! The command line: parses the words of the program into an [`Invocation`], over `clap`. The main
//! contract is [`parse`]: each text and number of an invocation is that of its argument among the
//! words, or its default, and each number is in its range.
#![tactic(auto)]

mod words;

ghost use Rattle.std.specs.Prelude.{◌≡◌, ◌≤◌, false, true, IfOk, IfSome, Ok, codes, map, option_map};
ghost use Rattle.clap.specs.Words.{app_of, first_of, found_of, rows_of, rule_of, subcommand_rows_of};
ghost use Rattle.command_line.specs.CommandLine.{IsInClosedRange, HasNumbersInRange};
ghost use Rattle.command_line.specs.Program.{SaysFlag, SaysInvocation, SaysMatches, SaysNamed, SaysNumber, TakesCommand, bound_rule, check_app, cycle_rule, explain_app, flag_rule, goodlockd, idle_rule, limit_rule, bare_app, offline_app, positional, number_option, replay_app, script_app, serve_app, sessions_rule, sized_serve_app, workers_rule};

use clap::error::ErrorKind;
use clap::{Arg, ArgAction, ArgMatches, Command, Error, value_parser};
use std::alloc::{AllocError, Global};
pub use words::{tell, words_of};

/// A parsed command line.
#[derive(Debug, Drop, PartialEq, Eq)]
pub enum Invocation<'a> {
    /// Serve at an address, with 1 to 16 workers, for `sessions` sessions (0: without end, at most
    /// 1,000,000), over a book that accepts at most `limit` events (1 to 1,048,576). A session that
    /// is idle for `idle` seconds (0: never, at most 86,400) is closed. With `stop_at_eof` the
    /// server ends when standard input does. With `log` it writes a log to standard error.
    Serve {
        address: &'a str,
        workers: u32,
        sessions: u32,
        limit: u32,
        idle: u32,
        stop_at_eof: bool,
        log: bool,
    },
    /// Run a script over a book that accepts at most `limit` events (1 to 1,048,576).
    Script {
        file: &'a str,
        limit: u32,
    },
    /// Report the cycles of at most `bound` members (2 to 8) in a file of events.
    Offline {
        file: &'a str,
        bound: u32,
    },
    /// Check a witness file against a trace file.
    Replay {
        trace: &'a str,
        witness: &'a str,
    },
    /// Explain the cycles of at most `bound` members (2 to 8) in a file of events, or the one with
    /// these numbers (2 to 8 in decimal with commas).
    Explain {
        file: &'a str,
        bound: u32,
        cycle: Option<&'a str>,
    },
    /// Check a file of explained cycles against a trace file.
    Check {
        trace: &'a str,
        file: &'a str,
    },
}

/// Returns a required positional argument.
fn positional<'a>(alloc: Global, id: &'a str, name: &'a str, help: &'a str) -> Arg<'a>
    ensures rule { rule_of result ≡ positional id.entry.now }
    ensures local { result.global ≡ false }
{
    Arg::new(alloc, id)
        .value_name(name)
        .help(help)
        .required(true)
}

/// Returns an option `--id NAME` with a number from `least` to `most`.
fn number_option<'a>(alloc: Global, id: &'a str, name: &'a str, least: u32, most: u32) -> Arg<'a>
    requires { least ≤ most }
    ensures rule { rule_of result ≡ number_option id.entry.now least most }
    ensures local { result.global ≡ false }
{
    Arg::new(alloc, id).long(id).value_name(name).value_parser(value_parser!(u32).range(
        i64::from(least)..=i64::from(most),
    ))
}

fn limit<'a>(alloc: Global) -> Arg<'a>
    ensures rule { rule_of result ≡ limit_rule }
    ensures local { result.global ≡ false }
{
    number_option(alloc, "limit", "L", 1, 1_048_576)
        .help("Largest number of accepted events, 1 to 1048576")
        .default_value("1048576")
}

fn workers<'a>(alloc: Global) -> Arg<'a>
    ensures rule { rule_of result ≡ workers_rule }
    ensures local { result.global ≡ false }
{
    number_option(alloc, "workers", "W", 1, 16)
        .help("Number of threads that compute tasks, 1 to 16")
        .default_value("1")
}

fn sessions<'a>(alloc: Global) -> Arg<'a>
    ensures rule { rule_of result ≡ sessions_rule }
    ensures local { result.global ≡ false }
{
    number_option(alloc, "sessions", "S", 0, 1_000_000)
        .help("End after this number of sessions, 0 to 1000000; 0 means never")
        .default_value("0")
}

fn idle<'a>(alloc: Global) -> Arg<'a>
    ensures rule { rule_of result ≡ idle_rule }
    ensures local { result.global ≡ false }
{
    number_option(alloc, "idle", "SECONDS", 0, 86_400)
        .help("Close a session that is idle for this time, 0 to 86400 seconds; 0 means never")
        .default_value("0")
}

/// Returns a flag `--id`.
fn flag<'a>(alloc: Global, id: &'a str, help: &'a str) -> Arg<'a>
    ensures rule { rule_of result ≡ flag_rule id.entry.now }
    ensures local { result.global ≡ false }
{
    Arg::new(alloc, id)
        .long(id)
        .action(ArgAction::SetTrue)
        .help(help)
}

fn bound<'a>(alloc: Global) -> Arg<'a>
    ensures rule { rule_of result ≡ bound_rule }
    ensures local { result.global ≡ false }
{
    number_option(alloc, "bound", "K", 2, 8)
        .help("Largest number of members of a cycle, 2 to 8")
        .required(true)
}

fn cycle<'a>(alloc: Global) -> Arg<'a>
    ensures rule { rule_of result ≡ cycle_rule }
    ensures local { result.global ≡ false }
{
    Arg::new(alloc, "cycle")
        .long("cycle")
        .value_name("N,N,..")
        .help("Explain only the cycle with these dependency numbers")
}

/// Returns `serve` with the arguments that say how much it serves.
fn sized_serve<'a>(alloc: Global) -> Result<Command<'a>, AllocError>
    ensures app { IfOk result (λ command. app_of command ≡ sized_serve_app) }
{
    Command::new(alloc, "serve")
        .about("Serves agents and operators over TCP")
        .arg(positional(
            alloc,
            "address",
            "ADDRESS",
            "Address and port, as in 127.0.0.1:7070",
        ))?
        .arg(workers(alloc))?
        .arg(sessions(alloc))?
        .arg(limit(alloc))
}

fn serve<'a>(alloc: Global) -> Result<Command<'a>, AllocError>
    ensures { IfOk result (λ command. app_of command ≡ serve_app) }
{
    sized_serve(alloc)?
        .arg(idle(alloc))?
        .arg(flag(
            alloc,
            "stop-at-eof",
            "End when standard input ends; open sessions have 5 seconds",
        ))?
        .arg(flag(alloc, "log", "Log sessions and questions to standard error"))
}

fn script<'a>(alloc: Global) -> Result<Command<'a>, AllocError>
    ensures { IfOk result (λ command. app_of command ≡ script_app) }
{
    Command::new(alloc, "script")
        .about("Runs a script of events and questions and prints the replies")
        .arg(positional(alloc, "file", "FILE", "The script"))?
        .arg(limit(alloc))
}

fn offline<'a>(alloc: Global) -> Result<Command<'a>, AllocError>
    ensures { IfOk result (λ command. app_of command ≡ offline_app) }
{
    Command::new(alloc, "offline")
        .about("Reports the lock cycles of a file of events")
        .arg(positional(alloc, "file", "FILE", "The file of events"))?
        .arg(bound(alloc))
}

fn replay<'a>(alloc: Global) -> Result<Command<'a>, AllocError>
    ensures { IfOk result (λ command. app_of command ≡ replay_app) }
{
    Command::new(alloc, "replay")
        .about("Checks a witness against a trace")
        .arg(positional(alloc, "trace", "TRACE", "The file of events"))?
        .arg(positional(alloc, "witness", "WITNESS", "The witness file"))
}

fn explain<'a>(alloc: Global) -> Result<Command<'a>, AllocError>
    ensures { IfOk result (λ command. app_of command ≡ explain_app) }
{
    Command::new(alloc, "explain")
        .about("Explains the lock cycles of a file of events")
        .arg(positional(alloc, "file", "FILE", "The file of events"))?
        .arg(bound(alloc))?
        .arg(cycle(alloc))
}

fn check<'a>(alloc: Global) -> Result<Command<'a>, AllocError>
    ensures { IfOk result (λ command. app_of command ≡ check_app) }
{
    Command::new(alloc, "check")
        .about("Checks explained cycles against a trace")
        .arg(positional(alloc, "trace", "TRACE", "The file of events"))?
        .arg(positional(alloc, "file", "FILE", "The output of explain or offline"))
}

/// Returns the program with one more command.
fn add_command<'a>(program: Command<'a>, command: Command<'a>) -> Result<Command<'a>, AllocError>
    requires { (app_of command).top.is_plain ≡ true }
    ensures { IfOk result (TakesCommand program.entry command.entry) }
{
    program.subcommand(command)
}

/// Returns the program before its commands are added.
fn bare_program<'a>(alloc: Global) -> Command<'a>
    ensures { app_of result ≡ bare_app }
{
    Command::new(alloc, "goodlockd")
        .about("Predicts the deadlocks of a traced program from its events")
        .version("2.0.0")
        .subcommand_required(true)
}

fn program<'a>(alloc: Global) -> Result<Command<'a>, AllocError>
    ensures { IfOk result (λ program. app_of program ≡ goodlockd) }
{
    let program = add_command(bare_program(alloc), serve(alloc)?)?;
    let program = add_command(program, script(alloc)?)?;
    let program = add_command(program, offline(alloc)?)?;
    let program = add_command(program, replay(alloc)?)?;
    let program = add_command(program, explain(alloc)?)?;
    add_command(program, check(alloc)?)
}

/// Returns the text of an argument, or `None` if it has none.
fn text_argument<'a>(matches: &ArgMatches<'a>, id: &str) -> Option<&'a str>
    ensures { option_map (λ text. text.now) result ≡
        first_of id.now (rows_of (found_of matches.now)) }
{
    matches.get_str(id)
}

/// Returns the number of an argument, or `None` if it is not in the range.
fn number_argument(matches: &ArgMatches<'_>, id: &str, least: u32, most: u32) -> Option<u32>
    ensures within { IfSome result (IsInClosedRange least most) }
    ensures said { IfSome result (SaysNumber (rows_of (found_of matches.now)) id.now) }
{
    let value = matches.get_one::<u32>(id)?;
    if least <= value && value <= most {
        Some(value)
    } else {
        None
    }
}

/// Returns whether the flag is given.
fn flag_argument(matches: &ArgMatches<'_>, id: &str) -> bool
    ensures { SaysFlag (rows_of (found_of matches.now)) id.now result }
{
    matches.get_flag(id)
}

fn chosen_serve<'a>(given: &ArgMatches<'a>) -> Option<Invocation<'a>>
    ensures range { IfSome result HasNumbersInRange }
    ensures said { IfSome result (SaysNamed (codes "serve") (rows_of (found_of given.now))) }
{
    Some(Invocation::Serve {
        address: text_argument(given, "address")?,
        workers: number_argument(given, "workers", 1, 16)?,
        sessions: number_argument(given, "sessions", 0, 1_000_000)?,
        limit: number_argument(given, "limit", 1, 1_048_576)?,
        idle: number_argument(given, "idle", 0, 86_400)?,
        stop_at_eof: flag_argument(given, "stop-at-eof"),
        log: flag_argument(given, "log"),
    })
}

fn chosen_script<'a>(given: &ArgMatches<'a>) -> Option<Invocation<'a>>
    ensures range { IfSome result HasNumbersInRange }
    ensures said { IfSome result (SaysNamed (codes "script") (rows_of (found_of given.now))) }
{
    Some(Invocation::Script {
        file: text_argument(given, "file")?,
        limit: number_argument(given, "limit", 1, 1_048_576)?,
    })
}

fn chosen_offline<'a>(given: &ArgMatches<'a>) -> Option<Invocation<'a>>
    ensures range { IfSome result HasNumbersInRange }
    ensures said { IfSome result (SaysNamed (codes "offline") (rows_of (found_of given.now))) }
{
    Some(Invocation::Offline {
        file: text_argument(given, "file")?,
        bound: number_argument(given, "bound", 2, 8)?,
    })
}

fn chosen_replay<'a>(given: &ArgMatches<'a>) -> Option<Invocation<'a>>
    ensures range { IfSome result HasNumbersInRange }
    ensures said { IfSome result (SaysNamed (codes "replay") (rows_of (found_of given.now))) }
{
    Some(Invocation::Replay {
        trace: text_argument(given, "trace")?,
        witness: text_argument(given, "witness")?,
    })
}

fn chosen_explain<'a>(given: &ArgMatches<'a>) -> Option<Invocation<'a>>
    ensures range { IfSome result HasNumbersInRange }
    ensures said { IfSome result (SaysNamed (codes "explain") (rows_of (found_of given.now))) }
{
    Some(Invocation::Explain {
        file: text_argument(given, "file")?,
        bound: number_argument(given, "bound", 2, 8)?,
        cycle: text_argument(given, "cycle"),
    })
}

fn chosen_check<'a>(given: &ArgMatches<'a>) -> Option<Invocation<'a>>
    ensures range { IfSome result HasNumbersInRange }
    ensures said { IfSome result (SaysNamed (codes "check") (rows_of (found_of given.now))) }
{
    Some(Invocation::Check {
        trace: text_argument(given, "trace")?,
        file: text_argument(given, "file")?,
    })
}

fn chosen<'a>(matches: &ArgMatches<'a>) -> Option<Invocation<'a>>
    ensures range { IfSome result HasNumbersInRange }
    ensures said { IfSome result (SaysMatches (subcommand_rows_of matches.now)) }
{
    let (name, given) = matches.subcommand()?;
    match name {
        "serve" => chosen_serve(given),
        "script" => chosen_script(given),
        "offline" => chosen_offline(given),
        "replay" => chosen_replay(given),
        "explain" => chosen_explain(given),
        "check" => chosen_check(given),
        _ => None,
    }
}

/// Parses the words with a built program.
fn invocation_of<'a>(
    program: &mut Command<'a>,
    words: &'a [&'a str],
) -> Result<Invocation<'a>, Error>
    requires { app_of program.old ≡ goodlockd }
    ensures range { IfOk result HasNumbersInRange }
    ensures said { IfOk result (SaysInvocation (map (λ word. word.now) words.entry.now)) }
{
    let matches = program.try_get_matches_from_mut(words)?;
    let invocation = chosen(&matches);
    drop(matches);
    match invocation {
        Some(invocation) => Ok(invocation),
        None => Err(program.error(ErrorKind::ValueValidation, "a number is out of its range")?),
    }
}

/// Parses a command line. The first word names the program.
///
/// # Errors
///
/// `clap`'s error if the words are not understood or ask for help or the version. Its text is for
/// the user.
pub fn parse<'a>(alloc: Global, words: &'a [&'a str]) -> Result<Invocation<'a>, Error>
    ensures range { IfOk result HasNumbersInRange }
    ensures said { IfOk result (SaysInvocation (map (λ word. word.now) words.entry.now)) }
{
    let mut program = program(alloc)?;
    let invocation = invocation_of(&mut program, words);
    drop(program);
    invocation
}
