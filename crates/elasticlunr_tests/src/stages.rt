//! Calls of stages and of the pipeline that they make.
use crate::answer::Answer;
use crate::call::Call;
use crate::subject::Subject;
use elasticlunr::IndexError;
use elasticlunr::lang::common::{RegexTrimmer, StopWordFilter};
use elasticlunr::lang::{ar, en, run_on_words};
use elasticlunr::pipeline::{Pipeline, PipelineFn, Stage};
use std::alloc::{AllocError, Global};
use unicode::properties::Script;

/// A pipeline, whose last stage is called, the scripts of the next trimmer, and the list to which
/// the pipeline adds single tokens.
#[derive(Drop)]
pub struct Stages {
    pub pipeline: Pipeline,
    scripts: Vec<Script>,
    kept: Vec<String>,
}

impl Stages {
    pub fn new(alloc: Global, pipeline: Pipeline) -> Stages {
        Stages {
            pipeline,
            scripts: Vec::new(alloc),
            kept: Vec::new(alloc),
        }
    }

    fn push(&mut self, stage: Stage) -> Answer {
        match self.pipeline.queue.push(stage) {
            Ok(()) => Answer::Done,
            Err(_) => Answer::NoMemory,
        }
    }

    fn push_filter(&mut self, made: Result<StopWordFilter, IndexError>) -> Answer {
        match made {
            Ok(filter) => self.push(Stage::StopWords(filter)),
            Err(error) => Answer::Refused(error),
        }
    }

    fn push_trimmer(&mut self, made: Result<RegexTrimmer, IndexError>) -> Answer {
        match made {
            Ok(trimmer) => self.push(Stage::Class(trimmer)),
            Err(error) => Answer::Refused(error),
        }
    }

    fn add_script(&mut self, name: &str) -> Answer {
        let script = match name {
            "Latin" => Script::Latin,
            "Hangul" => Script::Hangul,
            "Cyrillic" => Script::Cyrillic,
            "Hiragana" => Script::Hiragana,
            _ => return Answer::NoSuchCall,
        };
        match self.scripts.push(script) {
            Ok(()) => Answer::Done,
            Err(_) => Answer::NoMemory,
        }
    }

    fn add(&mut self, call: &Call<'_>, tokens: Vec<String>) -> Answer {
        match call.name {
            "EnglishTrimmer" => self.push(Stage::EnglishTrimmer),
            "EnglishStemmer" => self.push(Stage::EnglishStemmer),
            "ArabicStemmer" => self.push(Stage::ArabicStemmer),
            "Keep" => self.push(Stage::Keep(last_of(call.alloc, tokens))),
            "script" => self.add_script(call.text(0)),
            _ => self.make(call, tokens),
        }
    }

    fn make(&mut self, call: &Call<'_>, tokens: Vec<String>) -> Answer {
        match call.name {
            "StopWordFilter::new" => {
                let words = call.texts_after_first();
                self.push_filter(StopWordFilter::new(call.alloc, call.text(0), words))
            }
            "RegexTrimmer::new" => {
                self.push_trimmer(RegexTrimmer::new(call.alloc, call.text(0), call.text(1)))
            }
            "RegexTrimmer::of_scripts" => {
                let made = RegexTrimmer::of_scripts(call.alloc, call.text(0), &self.scripts);
                self.push_trimmer(made)
            }
            "clone" => self.copy_last(call.alloc),
            "run_on" => self.run_on(call.alloc, tokens),
            "kept" => Answer::texts(copies_of(call.alloc, &self.kept)),
            _ => called(&self.pipeline, call, tokens),
        }
    }

    fn run_on(&mut self, alloc: Global, tokens: Vec<String>) -> Answer {
        let token = last_of(alloc, tokens);
        match self.pipeline.run_on(alloc, token, &mut self.kept) {
            Ok(()) => Answer::Done,
            Err(AllocError) => Answer::NoMemory,
        }
    }

    fn copy_last(&mut self, alloc: Global) -> Answer {
        match self.pipeline.queue.last() {
            Some(Stage::StopWords(filter)) => {
                let made = filter.clone(alloc);
                self.push_filter(made)
            }
            Some(Stage::Class(trimmer)) => {
                let made = trimmer.clone(alloc);
                self.push_trimmer(made)
            }
            Some(Stage::Function(wrapper)) => match wrapper.clone(alloc) {
                Ok(copy) => self.push(Stage::Function(copy)),
                Err(_) => Answer::NoMemory,
            },
            _ => Answer::NoSuchCall,
        }
    }
}

impl Subject for Stages {
    fn answer(&mut self, call: &Call<'_>, tokens: Vec<String>) -> Answer {
        self.add(call, tokens)
    }
}

fn last_of(alloc: Global, tokens: Vec<String>) -> String {
    let mut tokens = tokens;
    match tokens.pop() {
        Some(token) => token,
        None => String::new(alloc),
    }
}

fn copies_of(alloc: Global, texts: &[String]) -> Result<Vec<String>, AllocError> {
    let mut copies = Vec::with_capacity(alloc, texts.len())?;
    for text in texts {
        copies.push(text.clone()?)?;
    }
    Ok(copies)
}

/// A call of the pipeline.
fn called(pipeline: &Pipeline, call: &Call<'_>, tokens: Vec<String>) -> Answer {
    match call.name {
        "names" => Answer::texts(pipeline.names(call.alloc)),
        "run" => Answer::texts(pipeline.run(call.alloc, tokens)),
        "run_on_words" => Answer::texts(run_on_words(call.alloc, call.text(0), pipeline)),
        _ => match pipeline.queue.last() {
            Some(stage) => of_stage(stage, call, last_of(call.alloc, tokens)),
            None => Answer::NoSuchCall,
        },
    }
}

/// A call of the stage, or of what it holds or represents.
fn of_stage(stage: &Stage, call: &Call<'_>, token: String) -> Answer {
    match call.name {
        "Stage::name" => Answer::text(stage.name(call.alloc)),
        "Stage::filter" => Answer::left(stage.filter(call.alloc, token)),
        "stem" => Answer::text(en::Stemmer::new().stem(token)),
        "name" => name_of(stage, call.alloc),
        "filter" => filtered(stage, call.alloc, token),
        _ => looked_up(stage, call),
    }
}

/// A look-up in what the stage holds.
fn looked_up(stage: &Stage, call: &Call<'_>) -> Answer {
    match (call.name, stage) {
        ("stop_words", Stage::StopWords(filter)) => Answer::Number(
            filter.stop_words().len() as u64,
        ),
        ("contains", Stage::Class(trimmer)) => Answer::Flag(has_letter(trimmer, call.text(0))),
        _ => Answer::NoSuchCall,
    }
}

/// Whether the first character of a text is of the class.
fn has_letter(trimmer: &RegexTrimmer, text: &str) -> bool {
    match text.chars().next() {
        Some(letter) => trimmer.contains(letter),
        None => false,
    }
}

fn name_of(stage: &Stage, alloc: Global) -> Answer {
    match stage {
        Stage::StopWords(filter) => Answer::text(filter.name(alloc)),
        Stage::Class(trimmer) => Answer::text(trimmer.name(alloc)),
        Stage::EnglishStemmer => Answer::text(en::Stemmer::new().name(alloc)),
        Stage::ArabicStemmer => Answer::text(ar::Stemmer::new().name(alloc)),
        Stage::Function(wrapper) => Answer::text(wrapper.name(alloc)),
        _ => Answer::NoSuchCall,
    }
}

fn filtered(stage: &Stage, alloc: Global, token: String) -> Answer {
    match stage {
        Stage::StopWords(filter) => Answer::left(filter.filter(alloc, token)),
        Stage::Class(trimmer) => Answer::left(trimmer.filter(alloc, token)),
        Stage::EnglishTrimmer => Answer::left(en::trimmer(alloc, token)),
        Stage::EnglishStemmer => Answer::left(en::Stemmer::new().filter(alloc, token)),
        Stage::ArabicStemmer => Answer::left(ar::Stemmer::new().filter(alloc, token)),
        Stage::Function(wrapper) => Answer::left(wrapper.filter(alloc, token)),
        _ => Answer::NoSuchCall,
    }
}
