//! Files, standard input and standard output.

use elasticlunr_publish::files::write_file;
use std::fs::File;
use std::io::{Read, Stdin, Write};
use std::{fs, io};

/// What is read: standard input, or a file.
#[derive(Drop)]
pub enum Input {
    Standard(Stdin),
    File(File),
}

impl Read for Input {
    fn read(&mut self, buf: &mut [u8]) -> io::Result<usize> {
        match self {
            Input::Standard(stdin) => stdin.read(buf),
            Input::File(file) => file.read(buf),
        }
    }
}

/// Opens a file; standard input where no file is named, or `-`.
pub fn open_input(rt: &HostRuntime, file: Option<&str>) -> io::Result<Input> {
    match file {
        None | Some("-") => Ok(Input::Standard(rt.stdin())),
        Some(path) => Ok(Input::File(File::open(rt, path)?)),
    }
}

/// The name of an input in a message.
pub fn input_name(file: Option<&str>) -> &str {
    match file {
        None | Some("-") => "standard input",
        Some(path) => path,
    }
}

/// The bytes of a file; of standard input where no file is named, or `-`.
pub fn read_input(rt: &HostRuntime, file: Option<&str>) -> io::Result<Vec<u8>> {
    match file {
        None | Some("-") => {
            let mut bytes = Vec::new(rt.alloc());
            rt.stdin().read_to_end(&mut bytes)?;
            Ok(bytes)
        }
        Some(path) => fs::read(rt, path),
    }
}

/// Writes a text to a file, or to standard output where no file is named.
pub fn write_output(rt: &HostRuntime, file: Option<&str>, text: &str) -> io::Result<()> {
    match file {
        None | Some("-") => rt.stdout().write_all(text.as_bytes()),
        Some(path) => write_file(rt, path, text),
    }
}
