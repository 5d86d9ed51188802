//! Calls that begin with English, and those of parts that are handed in.
ghost use Rattle.elasticlunr.specs.OneAnswer.{HasOneAnswer};

use crate::answer::Answer;
use crate::call::Call;
use crate::handed_in::{CopyAllButB, Tokenizer, copy_all_but_b, whole_without_b};
use crate::indexes::Site;
use crate::listed::{Line, Listed};
use crate::stages::Stages;
use crate::subject::{self, Subject};
use elasticlunr::lang::English;
use elasticlunr::pipeline::{FnWrapper, Pipeline, PipelineFn, Stage};
use elasticlunr::{Index, IndexBuilder, IndexError};
use std::alloc::{AllocError, Global};
use std::io;

/// How many stages a pipeline has room for, so that a call that adds one allocates for the stage
/// alone.
const MOST_STAGES: usize = 64;

/// An index that may begin without naming its language.
#[derive(Drop)]
pub struct EnglishSite {
    site: Site<English>,
}

impl EnglishSite {
    fn new(pipeline: Pipeline) -> EnglishSite {
        EnglishSite {
            site: Site::new(None, pipeline),
        }
    }
}

impl Subject for EnglishSite {
    fn answer(&mut self, call: &Call<'_>, tokens: Vec<String>) -> Answer {
        match call.name {
            "Index::new" => self.site.put_index(Index::new(call.alloc, &call.texts)),
            "IndexBuilder::new" => self
                .site
                .put_builder(IndexBuilder::<English>::new(call.alloc)),
            _ => self.site.answer(call, tokens),
        }
    }
}

pub fn index(rt: &HostRuntime, listed: &mut Listed<'_>) -> io::Result<()> {
    let queue = Vec::with_capacity(rt.alloc(), MOST_STAGES)?;
    subject::run(rt, listed, &mut EnglishSite::new(Pipeline { queue }))
}

pub fn pipeline(rt: &HostRuntime, listed: &mut Listed<'_>) -> io::Result<()> {
    let queue = Vec::with_capacity(rt.alloc(), MOST_STAGES)?;
    subject::run(rt, listed, &mut Stages::new(rt.alloc(), Pipeline { queue }))
}

/// An index whose pipeline may be a function.
pub fn index_with_function(rt: &HostRuntime, listed: &mut Listed<'_>) -> io::Result<()> {
    let name = String::from_str(rt.alloc(), "copy")?;
    let wrapper = FnWrapper {
        name,
        function: copy_all_but_b,
    };
    let mut queue = Vec::with_capacity(rt.alloc(), MOST_STAGES)?;
    queue.push(Stage::Function(wrapper))?;
    subject::run(rt, listed, &mut EnglishSite::new(Pipeline { queue }))
}

pub fn pipeline_with_function(rt: &HostRuntime, listed: &mut Listed<'_>) -> io::Result<()> {
    let name = String::from_str(rt.alloc(), "copy")?;
    let wrapper = FnWrapper {
        name,
        function: copy_all_but_b,
    };
    let mut queue = Vec::with_capacity(rt.alloc(), MOST_STAGES)?;
    queue.push(Stage::Function(wrapper))?;
    subject::run(rt, listed, &mut Stages::new(rt.alloc(), Pipeline { queue }))
}

/// An index whose pipeline may be an object.
pub fn index_with_object(rt: &HostRuntime, listed: &mut Listed<'_>) -> io::Result<()> {
    let own: Box<dyn PipelineFn> = Box::new(rt.alloc(), CopyAllButB {})?;
    let mut queue = Vec::with_capacity(rt.alloc(), MOST_STAGES)?;
    queue.push(Stage::Own(own))?;
    subject::run(rt, listed, &mut EnglishSite::new(Pipeline { queue }))
}

pub fn pipeline_with_object(rt: &HostRuntime, listed: &mut Listed<'_>) -> io::Result<()> {
    let own: Box<dyn PipelineFn> = Box::new(rt.alloc(), CopyAllButB {})?;
    let mut queue = Vec::with_capacity(rt.alloc(), MOST_STAGES)?;
    queue.push(Stage::Own(own))?;
    subject::run(rt, listed, &mut Stages::new(rt.alloc(), Pipeline { queue }))
}

/// An index whose first field, `title`, has a tokenizer.
pub fn index_with_tokenizer(rt: &HostRuntime, listed: &mut Listed<'_>) -> io::Result<()> {
    let queue = Vec::with_capacity(rt.alloc(), MOST_STAGES)?;
    let mut site = EnglishSite::new(Pipeline { queue });
    let mut line = String::new(rt.alloc());
    listed.next_line(rt, &mut line)?;
    let line = Line::new(line.as_str());
    let tokenizer: Tokenizer = Box::new(rt.alloc(), whole_without_b)?;
    add_tokenizer(rt, listed, line, &mut site, tokenizer)?;
    subject::run(rt, listed, &mut site)
}

/// The call that comes first, `add_field_with_tokenizer`.
fn add_tokenizer(
    rt: &HostRuntime,
    listed: &mut Listed<'_>,
    line: Line<'_>,
    site: &mut EnglishSite,
    tokenizer: Tokenizer,
) -> io::Result<()>
    requires callable { Tokenizer.IsAlwaysCallable tokenizer }
    requires one_answer { HasOneAnswer (Tokenizer.post tokenizer) }
{
    let Ok(builder) = IndexBuilder::<English>::new(rt.alloc()) else {
        return subject::not_made(rt, listed, line);
    };
    let begun = rt.print(line.call);
    let added = builder.add_field_with_tokenizer("title", tokenizer);
    let ended = rt.print(" -> ");
    let told = subject::tell(rt, listed, line, site.site.put_builder(added));
    begun.and(ended).and(told)
}
