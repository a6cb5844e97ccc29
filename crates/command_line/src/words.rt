//! The words of a command line, and printing what is not a command.

ghost use Rattle.std.specs.Prelude.{◌≡◌, map, string_bytes, IfOk};

use clap::Error;
use clap::error::ErrorKind;
use std::alloc::{AllocError, Global};
use std::io;

/// Returns the arguments as string slices.
///
/// # Errors
///
/// If an allocation fails.
pub fn words_of<'a>(alloc: Global, arguments: &'a [String]) -> Result<Vec<&'a str>, AllocError>
    ensures { IfOk result
        (λ words. map (λ w. w.now) words.items ≡ map string_bytes arguments.now) }
{
    let mut words = Vec::new(alloc);
    for argument in arguments {
        words.push(argument.as_str())?;
    }
    Ok(words)
}

/// Prints the error, help or version text of `clap`. Returns whether it was help or the version,
/// which is no error.
///
/// # Errors
///
/// If an allocation or the stream fails.
pub fn tell(rt: &HostRuntime, refused: Error) -> io::Result<bool> {
    if refused.kind() == ErrorKind::OutOfMemory {
        return Err(AllocError.into());
    }
    refused.print(rt)?;
    Ok(!refused.use_stderr())
}
