//! The words of the command line, and files by name.
use std::{env, fs, io};

/// The name and the contents of a file.
#[derive(Clone, Copy)]
pub struct NamedFile<'a> {
    pub name: &'a str,
    pub bytes: &'a [u8],
}

/// Returns the words of the command line. The first one names the program.
///
/// # Errors
///
/// If an allocation fails, or the system does not return the words.
pub fn arguments(rt: &HostRuntime) -> io::Result<Vec<String>> {
    let mut arguments = Vec::new(rt.alloc());
    for argument in env::args(rt)? {
        arguments.push(argument)?;
    }
    Ok(arguments)
}

/// Returns the bytes of the file, or `None` if it cannot be read. Standard error then gets
/// `cannot read FILE`, and the system's reason in a second line.
///
/// # Errors
///
/// If an allocation or a write to standard error fails.
pub fn read_file(rt: &HostRuntime, file: &str) -> io::Result<Option<Vec<u8>>> {
    match fs::read(rt, file) {
        Ok(bytes) => Ok(Some(bytes)),
        Err(error) if error.kind() == io::ErrorKind::OutOfMemory => Err(error),
        Err(error) => {
            eprintln!(rt; "cannot read {file}")?;
            eprintln!(rt; "{error}")?;
            Ok(None)
        }
    }
}
