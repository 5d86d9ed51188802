//! What is being written under a name of its own, before it gets the name under which it is read.
//!
//! Who writes it has a lock on it, which the system ends with the process. So what nobody has a lock
//! on was left by a process that was killed, and the next one removes it.

use crate::names::{is_temporary, temporary_name};
use std::fs::{File, OpenOptions};
use std::io::{self, ErrorKind};
use std::os::unix::fs::{MetadataExt, OpenOptionsExt};
use std::{fs, process};

/// How many names are tried.
const TRIES: u64 = 1000;

/// What is made.
#[derive(Clone, Copy)]
pub(crate) enum Kind {
    Folder,
    File,
    /// A file that nobody else reads.
    PrivateFile,
}

/// A file or a folder that is being written, and the lock on it.
#[derive(Drop)]
pub struct Temporary {
    pub path: String,
    pub(crate) file: File,
}

/// Makes what is written for a path, under the first free name. Before that, what was left for the
/// path is removed.
pub(crate) fn make_temporary(rt: &HostRuntime, path: &str, kind: Kind) -> io::Result<Temporary> {
    remove_left(rt, path);
    let number = process::id(rt.process()) as u64;
    for tried in 0..TRIES {
        let name = temporary_name(rt.alloc(), path, number.saturating_add(tried))?;
        if let Some(file) = made(rt, name.as_str(), kind)? {
            return Ok(Temporary { path: name, file });
        }
    }
    Err(io::Error::from(ErrorKind::AlreadyExists))
}

/// Makes a file or a folder, and locks it; `None` where the name is taken. A file system without
/// locks has none.
fn made(rt: &HostRuntime, path: &str, kind: Kind) -> io::Result<Option<File>> {
    let opened = match kind {
        Kind::Folder => new_folder(rt, path),
        Kind::File => new_file(rt, path, 0o666),
        Kind::PrivateFile => new_file(rt, path, 0o600),
    };
    match opened {
        Ok(Some(file)) => {
            if is_taken(&file) || !is_at(rt, &file, path) {
                return Ok(None);
            }
            Ok(Some(file))
        }
        Ok(None) => Ok(None),
        Err(e) if e.kind() == ErrorKind::AlreadyExists => Ok(None),
        Err(e) => Err(e),
    }
}

fn new_file(rt: &HostRuntime, path: &str, mode: u32) -> io::Result<Option<File>> {
    let mut options = OpenOptions::new();
    options.write(true).create_new(true).mode(mode);
    Ok(Some(options.open(rt, path)?))
}

/// A new folder, unless another process has removed it before it was locked.
fn new_folder(rt: &HostRuntime, path: &str) -> io::Result<Option<File>> {
    fs::create_dir(rt, path)?;
    match File::open(rt, path) {
        Ok(file) => Ok(Some(file)),
        Err(e) if e.kind() == ErrorKind::NotFound => Ok(None),
        Err(e) => Err(e),
    }
}

/// Whether another process has a lock on it. If none has, this one has it from now on.
pub(crate) fn is_taken(file: &File) -> bool {
    match file.try_lock() {
        Ok(()) => false,
        Err(e) => io::Error::from(e).kind() == ErrorKind::WouldBlock,
    }
}

/// Whether it still has this path.
fn is_at(rt: &HostRuntime, file: &File, path: &str) -> bool {
    match (file.metadata(), fs::symlink_metadata(rt, path)) {
        (Ok(one), Ok(other)) => one.ino() == other.ino() && one.dev() == other.dev(),
        _ => false,
    }
}

/// Removes what was left for a path. What can't be removed stays.
fn remove_left(rt: &HostRuntime, path: &str) {
    let (folder, base) = match path.rsplit_once('/') {
        Some(("", base)) => ("/", base),
        Some(parts) => parts,
        None => (".", path),
    };
    let Ok(entries) = fs::read_dir(rt, folder) else {
        return;
    };
    for entry in entries {
        if let Ok(entry) = entry {
            if is_temporary(base, entry.file_name()) {
                let _ = remove_unlocked(rt, entry.path().as_str());
            }
        }
    }
}

/// Removes a file or a folder on which nobody has a lock.
fn remove_unlocked(rt: &HostRuntime, path: &str) -> io::Result<()> {
    let about = fs::symlink_metadata(rt, path)?;
    if !about.is_dir() && !about.is_file() {
        return Ok(());
    }
    let file = File::open(rt, path)?;
    if file.try_lock().is_err() || !is_at(rt, &file, path) {
        return Ok(());
    }
    if about.is_dir() {
        fs::remove_dir_all(rt, path)
    } else {
        fs::remove_file(rt, path)
    }
}
