//! The words of the command line.

use clap::builder::ValueParser;
use clap::{Arg, ArgAction, Command};
use std::alloc::{AllocError, Global};

/// The version of this port, and what it is a port of.
const VERSION: &str = "0.1.0 (a port of elasticlunr-rs 3.0.2)";

/// The greatest number that an option takes.
const MOST: u64 = 1_000_000_000;

/// The command and its sub-commands.
pub fn command_line<'a>(alloc: Global) -> Result<Command<'a>, AllocError> {
    let languages = "Lists the languages: name, code and the stages of each";
    bare_command(alloc)?
        .subcommand(build_words(alloc)?)?
        .subcommand(check_words(alloc)?)?
        .subcommand(search_words(alloc)?)?
        .subcommand(Command::new(alloc, "languages").about(languages))
}

/// The command without its sub-commands.
fn bare_command<'a>(alloc: Global) -> Result<Command<'a>, AllocError> {
    let command = Command::new(alloc, "elasticlunr")
        .version(VERSION)
        .about("Builds search indexes for elasticlunr.js, checks documents and searches")
        .subcommand_required(true)
        .arg_required_else_help(true)
        .disable_help_subcommand(true);
    command.bin_name("elasticlunr")
}

/// `build`: what `check` takes, and what is done with the index.
fn build_words<'a>(alloc: Global) -> Result<Command<'a>, AllocError> {
    let about = "Prints an index of the documents in FILE, or of standard input";
    let output = "Writes the index there, whole or not at all";
    let script = "Writes this text before the index and `;` after it";
    let pretty = "Prints the index with a line for each member";
    let pieces = "Writes the index there in pieces, and removes those of earlier ones";
    let size = "The bytes of a piece [default: 8192]";
    let title = "The field whose texts are titles [default: title]";
    let keep = "Keeps the pieces of so many heads, with the new one [default: 1]";
    let arguments = vec![in alloc;
        option(alloc, "output", "FILE", output).short('o'),
        flag(alloc, "no-save", "Keeps no texts of documents in the index"),
        flag(alloc, "pretty", pretty),
        option(alloc, "js", "TEXT", script),
        option(alloc, "pieces", "DIR", pieces),
        option(alloc, "piece-size", "BYTES", size).requires_arg("pieces")?,
        option(alloc, "keep", "NUMBER", keep).requires_arg("pieces")?,
        option(alloc, "title", "KEY", title).requires_arg("pieces")?,
    ]?;
    input_words(alloc, Command::new(alloc, "build").about(about))?.args(arguments)
}

/// `check`: the input and how it is read.
fn check_words<'a>(alloc: Global) -> Result<Command<'a>, AllocError> {
    let command = Command::new(alloc, "check").about(
        "Reports what is wrong in FILE, or in standard input, and writes no index",
    );
    input_words(alloc, command)
}

/// The words of an input: where it is and how it is read.
fn input_words<'a>(alloc: Global, command: Command<'a>) -> Result<Command<'a>, AllocError> {
    let file = "A job, an array of objects, or a line for each object";
    let format = "The form of the input, if not the one that its first line shows";
    let forms = ["job", "objects", "lines"].as_slice();
    let reference = "The key of an object's reference [default: id]";
    let fields = "The fields, with a comma between them";
    let language = "A name or a code of `elasticlunr languages`";
    let indexed = "Indexes the reference as well";
    let store = "Members that are stored and not indexed, with a comma between them";
    let longest = "Leaves out words of more characters than this";
    let stems = "Finds other forms of a word, where `elasticlunr languages` lists a stemmer";
    let progress = "Reports when the input is read and the index is made";
    let arguments = vec![in alloc;
        Arg::new(alloc, "file").value_name("FILE").help(file),
        option(alloc, "format", "FORM", format).value_parser(forms),
        option(alloc, "ref", "KEY", reference),
        flag(alloc, "index-ref", indexed),
        option(alloc, "fields", "KEYS", fields),
        option(alloc, "lang", "LANGUAGE", language),
        option(alloc, "store", "KEYS", store),
        option(alloc, "max-token", "NUMBER", longest),
        flag(alloc, "stems", stems),
        flag(alloc, "strict", "Treats warnings as refusals"),
        flag(alloc, "progress", progress),
    ]?;
    command.args(arguments)
}

/// `search`: an index, a query, and what is found and printed.
fn search_words<'a>(alloc: Global) -> Result<Command<'a>, AllocError> {
    let about = "Finds what a query asks for in an index, best first";
    let index = "The file of a printed index, or the folder of an index in pieces";
    let limit = "Prints so many hits at most, or all for 0";
    let json = "Prints a line of JSON for each hit: its reference, score and texts";
    let arguments = vec![in alloc;
        required(alloc, "index", "INDEX", index),
        required(alloc, "query", "QUERY", "The words to find"),
        option(alloc, "limit", "NUMBER", limit)
            .value_parser(ValueParser::unsigned(0, MOST))
            .default_value("10"),
        flag(alloc, "json", json),
    ]?;
    let command = Command::new(alloc, "search").about(about).args(arguments)?;
    command.args(finding_words(alloc)?)
}

/// What is found: by which words, in which fields.
fn finding_words<'a>(alloc: Global) -> Result<Vec<Arg<'a>>, AllocError> {
    let all = "Finds documents that have every word, each in some field";
    let bool_word = "Finds documents that have one word (OR), or every word in one field (AND)";
    let expand = "Finds words that begin with a word of the query, too";
    let field = "Finds in this field alone; may be given several times";
    let boost = "Multiplies the scores of a field, by 0 to 255; may be given several times";
    let arguments = vec![in alloc;
        flag(alloc, "expand", expand),
        flag(alloc, "all", all),
        option(alloc, "bool", "BOOL", bool_word)
            .value_parser(["OR", "AND"].as_slice())
            .conflicts_with("all")?,
        option(alloc, "field", "FIELD", field).action(ArgAction::Append),
        option(alloc, "boost", "FIELD=NUMBER", boost).action(ArgAction::Append),
    ]?;
    Ok(arguments)
}

/// An argument that has to be there.
fn required<'a>(alloc: Global, name: &'a str, value: &'a str, help: &'a str) -> Arg<'a> {
    Arg::new(alloc, name)
        .value_name(value)
        .required(true)
        .help(help)
}

/// An option with a value.
fn option<'a>(alloc: Global, name: &'a str, value: &'a str, help: &'a str) -> Arg<'a> {
    Arg::new(alloc, name)
        .long(name)
        .value_name(value)
        .help(help)
}

/// An option without a value.
fn flag<'a>(alloc: Global, name: &'a str, help: &'a str) -> Arg<'a> {
    Arg::new(alloc, name)
        .long(name)
        .action(ArgAction::SetTrue)
        .help(help)
}
