//! A file that replaces another one.

use crate::temporary::{Kind, make_temporary};
use std::fs::{File, Permissions};
use std::io::{ErrorKind, Write};
use std::{fs, io};

/// Writes a text to a file, whole or not at all; a file that was there before keeps its mode. What
/// is no plain file, as a device or a pipe, is written to as it stands.
pub fn write_file(rt: &HostRuntime, path: &str, text: &str) -> io::Result<()> {
    match fs::metadata(rt, path) {
        Ok(old) if old.is_file() => {
            let real = fs::canonicalize(rt, path)?;
            replace(rt, real.as_str(), text, Some(old.permissions()))
        }
        Ok(_) => fs::write(rt, path, text),
        Err(e) if e.kind() == ErrorKind::NotFound => replace(rt, path, text, None),
        Err(e) => Err(e),
    }
}

/// Writes a text to a new file next to this one, and gives it the name of this one. After an error
/// the new file isn't there.
fn replace(rt: &HostRuntime, path: &str, text: &str, mode: Option<Permissions>) -> io::Result<()> {
    // Nobody else reads the text before the file has the mode of the old one.
    let kind = if mode.is_some() {
        Kind::PrivateFile
    } else {
        Kind::File
    };
    let mut temporary = make_temporary(rt, path, kind)?;
    let name = temporary.path.as_str();
    let done = match fill(&mut temporary.file, text, mode) {
        Ok(()) => fs::rename(rt, name, path),
        Err(e) => Err(e),
    };
    if done.is_err() {
        let _ = fs::remove_file(rt, name);
    }
    done
}

/// Gives a new file its mode and its text.
fn fill(file: &mut File, text: &str, mode: Option<Permissions>) -> io::Result<()> {
    if let Some(mode) = mode {
        file.set_permissions(mode)?;
    }
    file.write_all(text.as_bytes())
}
