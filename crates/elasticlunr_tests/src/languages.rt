//! Calls of a language, and of the pipeline that it makes.
use crate::answer::Answer;
use crate::call::Call;
use crate::stages::Stages;
use crate::subject::Subject;
use elasticlunr::Language;
use elasticlunr::pipeline::Pipeline;
use std::alloc::Global;

/// A language, and its pipeline once that is made.
#[derive(Drop)]
pub struct Speaker<L: Drop> {
    language: L,
    stages: Stages,
}

impl<L: Language> Speaker<L> {
    pub fn new(alloc: Global, language: L) -> Speaker<L> {
        let empty = Pipeline {
            queue: Vec::new(alloc),
        };
        Speaker {
            language,
            stages: Stages::new(alloc, empty),
        }
    }

    fn make_pipeline(&mut self, alloc: Global) -> Answer {
        let empty = Pipeline {
            queue: Vec::new(alloc),
        };
        match self.language.make_pipeline(alloc, empty) {
            Ok(pipeline) => {
                self.stages.pipeline = pipeline;
                Answer::Done
            }
            Err(_) => Answer::NoMemory,
        }
    }
}

impl<L: Language> Subject for Speaker<L> {
    fn answer(&mut self, call: &Call<'_>, tokens: Vec<String>) -> Answer {
        match call.name {
            "name" => Answer::text(self.language.name(call.alloc)),
            "code" => Answer::text(self.language.code(call.alloc)),
            "tokenize" => Answer::texts(self.language.tokenize(call.alloc, call.text(0))),
            "make_pipeline" => self.make_pipeline(call.alloc),
            _ => self.stages.answer(call, tokens),
        }
    }
}
