//! Calls of a builder and of the index that it builds.
use crate::answer::Answer;
use crate::call::Call;
use crate::subject::Subject;
use elasticlunr::inverted_index::InvertedIndex;
use elasticlunr::pipeline::Pipeline;
use elasticlunr::{FieldValue, Index, IndexBuilder, IndexError, Language, TokenSource};
use std::alloc::Global;
use std::mem;

/// The language and the pipeline to be used, the builder until it builds, and then the index.
#[derive(Drop)]
pub struct Site<L: Language> {
    language: Option<L>,
    pipeline: Pipeline,
    builder: Option<IndexBuilder<L>>,
    index: Option<Index<L>>,
}

impl<L: Language> Site<L> {
    pub fn new(language: Option<L>, pipeline: Pipeline) -> Site<L> {
        Site {
            language,
            pipeline,
            builder: None,
            index: None,
        }
    }

    pub fn put_builder(&mut self, made: Result<IndexBuilder<L>, IndexError>) -> Answer {
        match made {
            Ok(builder) => {
                self.builder = Some(builder);
                Answer::Done
            }
            Err(error) => Answer::Refused(error),
        }
    }

    pub fn put_index(&mut self, made: Result<Index<L>, IndexError>) -> Answer {
        match made {
            Ok(index) => {
                self.index = Some(index);
                Answer::Done
            }
            Err(error) => Answer::Refused(error),
        }
    }

    /// A call that takes the language.
    fn begin(&mut self, language: L, call: &Call<'_>) -> Answer {
        match call.name {
            "IndexBuilder::with_language" => {
                self.put_builder(IndexBuilder::with_language(call.alloc, language))
            }
            _ => self.put_index(Index::with_language(call.alloc, language, &call.texts)),
        }
    }

    /// A call that takes the builder.
    fn step(&mut self, builder: IndexBuilder<L>, call: &Call<'_>) -> Answer {
        match call.name {
            "add_field" => self.put_builder(builder.add_field(call.text(0))),
            "add_fields" => self.put_builder(builder.add_fields(&call.texts)),
            "set_ref" => self.put_builder(builder.set_ref(call.text(0))),
            "save_docs" => self.put_builder(Ok(builder.save_docs(call.flag()))),
            "with_pipeline" => self.set_pipeline(builder, call.alloc),
            "build" => self.put_index(builder.build()),
            _ => Answer::NoSuchCall,
        }
    }

    fn set_pipeline(&mut self, builder: IndexBuilder<L>, alloc: Global) -> Answer {
        let empty = Pipeline {
            queue: Vec::new(alloc),
        };
        let pipeline = mem::replace(&mut self.pipeline, empty);
        self.put_builder(Ok(builder.with_pipeline(pipeline)))
    }
}

impl<L: Language> Subject for Site<L> {
    fn answer(&mut self, call: &Call<'_>, tokens: Vec<String>) -> Answer {
        let _unused = tokens;
        if let Some(index) = &mut self.index {
            return changed(index, call);
        }
        if let Some(builder) = self.builder.take() {
            return self.step(builder, call);
        }
        match self.language.take() {
            Some(language) => self.begin(language, call),
            None => Answer::NoSuchCall,
        }
    }
}

fn changed<L: Language>(index: &mut Index<L>, call: &Call<'_>) -> Answer {
    match call.name {
        "add_doc" => Answer::done(index.add_doc(call.text(0), call.texts_after_first())),
        "add_doc_with_tokens" => {
            Answer::done(index.add_doc_with_tokens(call.text(0), &[value_of(call)]))
        }
        "remove_doc" => Answer::done(index.remove_doc(call.text(0))),
        "compact" => Answer::done(index.compact()),
        _ => printed(index, call),
    }
}

/// The second text, as a value with the texts after it: 1 for those that go through the pipeline, 2
/// for those that are as they are, and 0 for none.
fn value_of<'a>(call: &'a Call<'a>) -> FieldValue<'a> {
    let given = &call.texts[call.texts.len().min(2)..];
    let tokens = match call.number() {
        1 => TokenSource::IntoPipeline(given),
        2 => TokenSource::AsGiven(given),
        _ => TokenSource::FromText,
    };
    FieldValue {
        text: call.text(1),
        tokens,
    }
}

fn printed<L: Language>(index: &Index<L>, call: &Call<'_>) -> Answer {
    match call.name {
        "to_value" => Answer::value(index.to_value()),
        "to_json" => Answer::json(index.to_json()),
        "to_json_pretty" => Answer::json(index.to_json_pretty()),
        "get_fields" => Answer::Flag(are_fields(index.get_fields(), &call.texts)),
        "document_store" => counted(index),
        _ => looked_up(index, call),
    }
}

fn are_fields(fields: &[String], names: &[&str]) -> bool {
    fields.len() == names.len()
        && fields
            .iter()
            .zip(names)
            .all(|(field, name)| field.as_str() == *name)
}

/// How many documents the store has.
fn counted<L: Language>(index: &Index<L>) -> Answer {
    match index.document_store() {
        Ok(store) => Answer::Number(store.len() as u64),
        Err(error) => Answer::Refused(error),
    }
}

/// A look-up in the trie of a field.
fn looked_up<L: Language>(index: &Index<L>, call: &Call<'_>) -> Answer {
    match index.inverted_index(call.text(0)) {
        Ok(Some(trie)) => of_trie(trie, call),
        Ok(None) => Answer::Left(None),
        Err(error) => Answer::Refused(error),
    }
}

fn of_trie(trie: &InvertedIndex, call: &Call<'_>) -> Answer {
    match call.name {
        "inverted_index" => Answer::Number(trie.get_doc_frequency(call.text(1))),
        "get_docs" => Answer::postings(trie.get_docs(call.text(1))),
        "has_token" => Answer::Flag(trie.has_token(call.text(1))),
        "get_term_frequency" => {
            Answer::Number(trie.get_term_frequency(call.text(1), call.text(2)))
        }
        _ => Answer::NoSuchCall,
    }
}
