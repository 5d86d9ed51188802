//! The command `elasticlunr`: builds an index of documents in a file, says what is wrong in them,
//! and searches an index. It ends with status 0 where it did what was asked for, 2 where the input
//! was refused, 1 where a file failed or memory ran out, and 64 where the command line is wrong.
#![tactic(auto)]

use clap::ArgMatches;
use clap::error::ErrorKind;
use elasticlunr_cli_build::build::{Use, build};
use elasticlunr_cli_search::search::search;
use elasticlunr_cli_words::languages::list_languages;
use elasticlunr_cli_words::words::command_line;
use elasticlunr_diagnostics::outcome::{Outcome, status};
use std::process::ExitCode;
use std::{env, io};

fn main(rt: HostRuntime) -> ExitCode {
    let ended = match run(&rt) {
        Ok(ended) => ended,
        Err(_) => Outcome::Failed,
    };
    ExitCode::from(status(ended))
}

/// Does what the command line asks for.
fn run(rt: &HostRuntime) -> io::Result<Outcome> {
    let alloc = rt.alloc();
    let words: Vec<String> = env::args(rt)?.collect(alloc)?;
    let command = command_line(alloc)?;
    match command.try_get_matches_from(words.as_slice()) {
        Ok(matches) => perform(rt, &matches),
        Err(error) => {
            error.print(rt)?;
            Ok(match error.kind() {
                ErrorKind::OutOfMemory => Outcome::Failed,
                ErrorKind::DisplayHelp | ErrorKind::DisplayVersion => Outcome::Done,
                _ => Outcome::Misused,
            })
        }
    }
}

/// Does what a sub-command asks for.
fn perform(rt: &HostRuntime, matches: &ArgMatches<'_>) -> io::Result<Outcome> {
    match matches.subcommand() {
        Some(("build", given)) => build(rt, given, Use::Write),
        Some(("search", given)) => search(rt, given),
        Some(("check", given)) => build(rt, given, Use::Check),
        _ => list_languages(rt),
    }
}
