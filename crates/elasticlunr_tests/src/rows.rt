//! The first line of a row: what its calls are made on, and after a colon what it shows.
use crate::begun;
use crate::handed_in::WithoutB;
use crate::indexes::Site;
use crate::languages::Speaker;
use crate::listed::{Line, Listed};
use crate::options::Options;
use crate::stages::Stages;
use crate::stores::Stores;
use crate::subject::{not_made, run};
use crate::texts::Functions;
use crate::tries::Tries;
use elasticlunr::Language;
use elasticlunr::lang::{self, from_name};
use elasticlunr::pipeline::Pipeline;
use std::io;

/// Makes the calls of a row.
pub fn row(rt: &HostRuntime, listed: &mut Listed<'_>, line: &str) -> io::Result<()> {
    println!(rt; "{line}")?;
    match line.split_once(": ") {
        Some((subject, _)) => made_on(rt, listed, subject),
        None => made_on(rt, listed, line),
    }
}

fn made_on(rt: &HostRuntime, listed: &mut Listed<'_>, subject: &str) -> io::Result<()> {
    match subject {
        "InvertedIndex" => run(rt, listed, &mut Tries::new(rt.alloc())),
        "DocumentStore" => run(rt, listed, &mut Stores::new(rt.alloc())),
        "SearchOptions" => run(rt, listed, &mut Options::new(rt.alloc())),
        "functions" => run(rt, listed, &mut Functions {}),
        _ => piped(rt, listed, subject),
    }
}

fn piped(rt: &HostRuntime, listed: &mut Listed<'_>, line: &str) -> io::Result<()> {
    match line {
        "Pipeline" => begun::pipeline(rt, listed),
        "Pipeline with a function" => begun::pipeline_with_function(rt, listed),
        "Pipeline with an object" => begun::pipeline_with_object(rt, listed),
        "Index" => begun::index(rt, listed),
        "Index with a function" => begun::index_with_function(rt, listed),
        "Index with an object" => begun::index_with_object(rt, listed),
        "Index with a tokenizer" => begun::index_with_tokenizer(rt, listed),
        "Index of WithoutB" => site(rt, listed, WithoutB {}),
        _ => of_language(rt, listed, line),
    }
}

fn site<L: Language>(rt: &HostRuntime, listed: &mut Listed<'_>, language: L) -> io::Result<()> {
    let pipeline = Pipeline {
        queue: Vec::new(rt.alloc()),
    };
    run(rt, listed, &mut Site::new(Some(language), pipeline))
}

fn speaker<L: Language>(rt: &HostRuntime, listed: &mut Listed<'_>, language: L) -> io::Result<()> {
    run(rt, listed, &mut Speaker::new(rt.alloc(), language))
}

fn of_language(rt: &HostRuntime, listed: &mut Listed<'_>, line: &str) -> io::Result<()> {
    match line.split_once(" of ") {
        Some(("Index", name)) => match from_name(name) {
            Some(language) => site(rt, listed, language),
            None => not_made(rt, listed, Line::new(line)),
        },
        Some(("AnyLanguage", name)) => match from_name(name) {
            Some(language) => speaker(rt, listed, language),
            None => not_made(rt, listed, Line::new(line)),
        },
        _ => kept(rt, listed, line),
    }
}

/// A built-in language by its type.
fn kept(rt: &HostRuntime, listed: &mut Listed<'_>, name: &str) -> io::Result<()> {
    match name {
        "Arabic" => speaker(rt, listed, lang::Arabic::new()),
        "Danish" => speaker(rt, listed, lang::Danish::new()),
        "Dutch" => speaker(rt, listed, lang::Dutch::new()),
        "English" => speaker(rt, listed, lang::English::new()),
        "Finnish" => speaker(rt, listed, lang::Finnish::new()),
        "French" => speaker(rt, listed, lang::French::new()),
        "German" => speaker(rt, listed, lang::German::new()),
        "Italian" => speaker(rt, listed, lang::Italian::new()),
        _ => more_kept(rt, listed, name),
    }
}

fn more_kept(rt: &HostRuntime, listed: &mut Listed<'_>, name: &str) -> io::Result<()> {
    match name {
        "Korean" => speaker(rt, listed, lang::Korean::new()),
        "Norwegian" => speaker(rt, listed, lang::Norwegian::new()),
        "Portuguese" => speaker(rt, listed, lang::Portuguese::new()),
        "Romanian" => speaker(rt, listed, lang::Romanian::new()),
        "Russian" => speaker(rt, listed, lang::Russian::new()),
        "Spanish" => speaker(rt, listed, lang::Spanish::new()),
        "Swedish" => speaker(rt, listed, lang::Swedish::new()),
        "Turkish" => speaker(rt, listed, lang::Turkish::new()),
        _ => not_made(rt, listed, Line::new(name)),
    }
}
