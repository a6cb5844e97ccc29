//! The files of a case.
use anyhow::{Context, Result};
use std::alloc::{AllocError, Global};
use std::io::{self, ErrorKind};
use std::{fs, str};

/// A case: its folder, which is the name of the command, and its name in this folder.
#[derive(Clone, Copy)]
pub struct Case<'a> {
    pub folder: &'a str,
    pub name: &'a str,
}

impl Case<'_> {
    /// Returns the path of the file of the case with this ending.
    pub(crate) fn path(&self, alloc: Global, ending: &str) -> Result<String, AllocError> {
        let folder = self.folder;
        let name = self.name;
        format!(in alloc; "{folder}/{name}.{ending}")
    }

    /// Returns the contents of the file of the case with this ending, empty if there is no such
    /// file.
    pub(crate) fn bytes(&self, rt: &HostRuntime, ending: &str) -> io::Result<Vec<u8>> {
        let path = self.path(rt.alloc(), ending)?;
        match fs::read(rt, path.as_str()) {
            Err(error) if error.kind() == ErrorKind::NotFound => Ok(Vec::new(rt.alloc())),
            read => read,
        }
    }

    /// Returns the words of the command line up to the file names, without the arguments.
    fn command(&self, alloc: Global) -> Result<Vec<String>, AllocError> {
        let endings: &[&str] = match self.folder {
            "replay" => &["trace", "witness"],
            "check" => &["trace", "cycles"],
            _ => &["in"],
        };
        let mut words = Vec::new(alloc);
        words.push(String::from_str(alloc, "goodlockd")?)?;
        words.push(String::from_str(alloc, self.folder)?)?;
        for ending in endings {
            words.push(self.path(alloc, ending)?)?;
        }
        Ok(words)
    }

    /// Returns the words of the command line: program, command, files, and arguments.
    pub(crate) fn words(&self, rt: &HostRuntime) -> Result<Vec<String>> {
        let arguments = self.bytes(rt, "args")?;
        let mut words = self.command(rt.alloc())?;
        push_words(rt.alloc(), &mut words, &arguments)?;
        Ok(words)
    }
}

/// Adds the words of a text, which are separated by white space.
fn push_words(alloc: Global, words: &mut Vec<String>, text: &[u8]) -> Result<()> {
    let text = str::from_utf8(text).ok().context("arguments in text")?;
    for word in text.split_ascii_whitespace() {
        words.push(String::from_str(alloc, word)?)?;
    }
    Ok(())
}

/// Returns the names of the cases in a folder, ascending. Each case has a file `NAME.status` with
/// its exit status.
pub(crate) fn names_in(rt: &HostRuntime, folder: &str) -> io::Result<Vec<String>> {
    let mut names = Vec::new(rt.alloc());
    for entry in fs::read_dir(rt, folder)? {
        let entry = entry?;
        if let Some(name) = entry.file_name().strip_suffix(".status") {
            names.push(String::from_str(rt.alloc(), name)?)?;
        }
    }
    names.sort()?;
    Ok(names)
}
