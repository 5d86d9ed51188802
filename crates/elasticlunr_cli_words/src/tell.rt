//! What goes to the error stream.

use elasticlunr_diagnostics::message::{InputError, Message};
use elasticlunr_diagnostics::outcome::Outcome;
use elasticlunr_diagnostics::shown::shown;
use std::io;

/// How many warnings have a line; the others are counted.
const SHOWN: usize = 10;

/// Writes a line. What it quotes of an input is written so that a terminal takes none of it for a
/// command.
pub fn say(rt: &HostRuntime, line: &str) -> io::Result<()> {
    let line = shown(rt.alloc(), line)?;
    eprintln!(rt; "{line}")
}

/// Says that a file failed.
pub fn failed(rt: &HostRuntime, file: &str, error: &io::Error) -> io::Result<Outcome> {
    let line = format!(in rt.alloc(); "elasticlunr: {file}: {error}")?;
    say(rt, line.as_str())?;
    Ok(Outcome::Failed)
}

/// Says why there is no index.
pub fn troubled(rt: &HostRuntime, file: &str, trouble: InputError) -> io::Result<Outcome> {
    match trouble {
        InputError::Refused(message) => {
            tell(rt, file, &message)?;
            Ok(Outcome::Refused)
        }
        InputError::Device(e) => failed(rt, file, &e),
        InputError::TooManyLines => {
            let line = format!(in rt.alloc(); "{file}: it has more lines than can be numbered")?;
            say(rt, line.as_str())?;
            Ok(Outcome::Failed)
        }
        InputError::Memory => {
            eprintln!(rt; "elasticlunr: out of memory")?;
            Ok(Outcome::Failed)
        }
    }
}

/// Says a message of a file.
fn tell(rt: &HostRuntime, file: &str, message: &Message) -> io::Result<()> {
    let said = &message.text;
    let line = match message.place {
        Some(place) => {
            let (line, column) = (place.line, place.column);
            format!(in rt.alloc(); "{file}:{line}:{column}: {said}")?
        }
        None => format!(in rt.alloc(); "{file}: {said}")?,
    };
    say(rt, line.as_str())
}

/// Says what is suspicious in the documents of a file.
pub fn warn(rt: &HostRuntime, file: &str, warnings: &[String]) -> io::Result<()> {
    for said in warnings.iter().take(SHOWN) {
        let line = format!(in rt.alloc(); "{file}: warning: {said}")?;
        say(rt, line.as_str())?;
    }
    let more = warnings.len().saturating_sub(SHOWN);
    if more > 0 {
        let ending = if more == 1 { "" } else { "s" };
        let line = format!(in rt.alloc(); "{file}: and {more} more warning{ending}")?;
        say(rt, line.as_str())?;
    }
    Ok(())
}
