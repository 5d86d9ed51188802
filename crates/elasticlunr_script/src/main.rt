//! Prints the script with which elasticlunr.js reads the index of a language in a browser. Each
//! line of standard input is the name of a language, as `German`; where there is none the script is
//! for all of them.
#![tactic(auto)]

use elasticlunr_browser::script::script_for;
use std::io;
use std::io::Write;
use std::process::ExitCode;

const UNKNOWN: &str = "refused: unknown language\n";

/// Answers the names on standard input. The status is 0 where a script was printed and 2 where a
/// line is no name of a language.
fn answer(rt: &HostRuntime) -> io::Result<u8> {
    let names = io::read_to_string(rt.alloc(), rt.stdin())?;
    let printed = script_for(rt.alloc(), names.as_str())?;
    match printed {
        Some(text) => {
            rt.stdout().write_all(text.as_str().as_bytes())?;
            Ok(0)
        }
        None => {
            rt.stdout().write_all(UNKNOWN.as_bytes())?;
            Ok(2)
        }
    }
}

fn main(rt: HostRuntime) -> ExitCode {
    ExitCode::from(answer(&rt).unwrap_or(1))
}
