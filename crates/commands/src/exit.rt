//! Exit statuses, and why a command ends early.
ghost use Rattle.std.specs.Prelude.{◌≡◌, ◌≢◌, ◌≤◌, ◌+◌, length, take, drop, IfErr, IfOk, MatchResult, OnErr, OnOk};
ghost use Rattle.std.specs.Io.KnownBytes.{Appends, Keeps};
ghost use Rattle.commands.specs.Exit.{error_status};
ghost use Rattle.commands.specs.Output.{AppendsPart, EndsWithResult, IsJust};
ghost use Rattle.commands.specs.declared.exit.Status.TheVariants.{Error, NotUnderstood};

use event_files::{ExplainedRefused, FileRefused};
use std::io::{self, Write};
use trace_model::NoMemory;

/// How many bytes of a report are written at once.
pub(crate) const OUTPUT: usize = 65_536;

/// How a command ended.
#[derive(Clone, Copy, Debug, PartialEq, Eq)]
pub enum Status {
    /// The command ran to its end.
    Done,
    /// The checked file is wrong, or there is no report. Standard output says why.
    Refused,
    /// Input, output or an allocation failed.
    Error,
    /// The command line or a line of a file is not understood.
    NotUnderstood,
}

impl Status {
    ghost use Rattle.std.specs.Prelude.{◌≡◌};
    ghost use Rattle.commands.specs.Exit.{exit_code};

    /// Returns the exit status of the program.
    pub fn code(self) -> u8
        ensures { result ≡ exit_code self }
    {
        match self {
            Status::Done => 0,
            Status::Refused => 1,
            Status::Error => 1,
            Status::NotUnderstood => 2,
        }
    }
}

/// Why a command ended early.
#[derive(Drop)]
pub enum CommandError {
    /// The first line that is not understood, counted from 1.
    Line(usize),
    /// The line, counted from 1, which says that an agent merged cycles of the report.
    Merged(usize),
    /// An allocation failed.
    Memory,
    /// A write to standard output failed, with this error.
    Output(io::Error),
}

impl From<NoMemory> for CommandError {
    ghost use Rattle.std.specs.Prelude.{◌≡◌};
    ghost use Rattle.commands.specs.declared.exit.CommandError.TheVariants.{Memory};

    ghost from_gives = { λ _ error. error ≡ Memory };

    fn from(_error: NoMemory) -> CommandError {
        CommandError::Memory
    }
}

impl From<FileRefused> for CommandError {
    ghost use Rattle.std.specs.Prelude.{◌≡◌};
    ghost use Rattle.commands.specs.Exit.{file_error};

    ghost from_gives = { λ refused error. error ≡ file_error refused };

    fn from(refused: FileRefused) -> CommandError {
        match refused {
            FileRefused::Line(number) => CommandError::Line(number),
            FileRefused::NoMemory => CommandError::Memory,
        }
    }
}

impl From<ExplainedRefused> for CommandError {
    ghost use Rattle.std.specs.Prelude.{◌≡◌};
    ghost use Rattle.commands.specs.Exit.{explained_error};

    ghost from_gives = { λ refused error. error ≡ explained_error refused };

    fn from(refused: ExplainedRefused) -> CommandError {
        match refused {
            ExplainedRefused::Line(number) => CommandError::Line(number),
            ExplainedRefused::Merged(number) => CommandError::Merged(number),
            ExplainedRefused::NoMemory => CommandError::Memory,
        }
    }
}

impl From<io::Error> for CommandError {
    ghost use Rattle.std.specs.Prelude.{◌≡◌};
    ghost use Rattle.commands.specs.declared.exit.CommandError.TheVariants.{Output};

    ghost from_gives = { λ reason error. error ≡ Output reason };

    fn from(reason: io::Error) -> CommandError {
        CommandError::Output(reason)
    }
}

impl CommandError {
    ghost use Rattle.std.specs.Prelude.{◌≡◌};
    ghost use Rattle.commands.specs.Exit.{error_status};

    /// Writes the error message about the file `name` to `err`, and returns the exit status. A
    /// failed write to `err` is ignored.
    pub fn report<E: Write>(&self, name: &str, err: &mut E) -> Status
        ensures { result ≡ error_status self.now }
    {
        match self {
            CommandError::Line(line) => {
                let _ = writeln!(err, "{name} line {line} not understood");
                Status::NotUnderstood
            }
            CommandError::Merged(line) => {
                let _ = writeln!(
                    err,
                    "{name} line {line} not understood: a merged report leaves out cycles, check \
                     what goodlockd offline or explain prints"
                );
                Status::NotUnderstood
            }
            CommandError::Memory => {
                let _ = writeln!(err, "no memory");
                Status::Error
            }
            CommandError::Output(reason) => report_output(reason, err),
        }
    }
}

/// Writes the error message about a failed write to standard output, with the system's reason, to
/// `err`, and returns the exit status. The reader of a broken pipe wants no more, so that is no
/// message.
fn report_output<E: Write>(reason: &io::Error, err: &mut E) -> Status
    ensures { result ≡ Error }
{
    if reason.kind() != io::ErrorKind::BrokenPipe {
        let _ = writeln!(err, "cannot write to standard output");
        let _ = writeln!(err, "{reason}");
    }
    Status::Error
}

/// Returns the status of a command, after an error message about the file `name` if it failed.
pub(crate) fn reported<E: Write>(
    ended: Result<Status, CommandError>,
    name: &str,
    err: &mut E,
) -> Status
    ensures { MatchResult ended (λ status. result ≡ status) (λ error. result ≡ error_status error) }
{
    match ended {
        Ok(status) => status,
        Err(error) => error.report(name, err),
    }
}

/// Returns the error of a writer that writes nothing.
fn no_progress() -> CommandError
    ensures { error_status result ≡ Error }
{
    CommandError::Output(io::Error::from(io::ErrorKind::WriteZero))
}

/// Writes the bytes from index `start` on once. Returns how many of them were written, which is 0
/// if the write was interrupted.
///
/// # Errors
///
/// `Output` if the writer fails, or writes none of one byte or more. Nothing is then written.
fn write_from<O: Write>(out: &mut O, bytes: &[u8], start: usize) -> Result<usize, CommandError>
    requires { start ≤ length bytes.now }
    ensures count { IfOk result (λ n. start + n ≤ length bytes.now) }
    ensures written { IfOk result
        (λ n. Appends (O.contents out.old) (O.contents out.new) (take n (drop start bytes.now))) }
    ensures kept { OnErr result (Keeps (O.contents out.old) (O.contents out.new)) }
    ensures failed { IfErr result (λ error. error_status error ≡ Error) }
{
    match out.write(&bytes[start..]) {
        Ok(0) => Err(no_progress()),
        Ok(count) => Ok(count),
        Err(error) if error.kind() == io::ErrorKind::Interrupted => Ok(0),
        Err(error) => Err(CommandError::Output(error)),
    }
}

/// Writes all bytes to `out`.
///
/// # Errors
///
/// `Output` if the writer fails. A prefix of the bytes is then written.
pub(crate) fn write_bytes<O: Write>(out: &mut O, bytes: &[u8]) -> Result<(), CommandError>
    ensures written { OnOk result (Appends (O.contents out.old) (O.contents out.new) bytes.now) }
    ensures cut { OnErr result (AppendsPart (O.contents out.old) (O.contents out.new) bytes.now) }
    ensures failed { IfErr result (λ error. error_status error ≡ Error) }
{
    let mut at = 0usize;
    for _turn in 0..u64::MAX {
        if at == bytes.len() {
            return Ok(());
        }
        at += write_from(out, bytes, at)?;
    }
    Err(no_progress())
}

/// Writes the whole text to `out` and flushes it. Returns the status.
///
/// # Errors
///
/// `Output` if the writer fails. A prefix of the text is then written.
pub(crate) fn write_text<O: Write>(
    out: &mut O,
    text: &[u8],
    status: Status,
) -> Result<Status, CommandError>
    requires { status ≢ NotUnderstood }
    ensures { EndsWithResult (IsJust status text.now) ⊥ result (O.contents out.old)
        (O.contents out.new) }
{
    write_bytes(out, text)?;
    out.flush()?;
    Ok(status)
}

/// Returns the status that the program ends with: the command's own, or `Error` after an I/O error.
/// Standard error gets `no memory` if an allocation failed, else the system's reason. It gets
/// nothing if standard output is a broken pipe.
pub fn final_status(rt: &HostRuntime, ran: io::Result<Status>) -> Status
    ensures { MatchResult ran (λ status. result ≡ status) (λ _. result ≡ Error) }
{
    match ran {
        Ok(status) => status,
        Err(error) => {
            // There is no other place to report a failed write to standard error.
            let _ = match error.kind() {
                io::ErrorKind::OutOfMemory => eprintln!(rt; "no memory"),
                io::ErrorKind::BrokenPipe => Ok(()),
                _ => eprintln!(rt; "a system call failed\n{error}"),
            };
            Status::Error
        }
    }
}
