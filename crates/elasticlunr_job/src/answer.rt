//! What is written for an input.

ghost use Rattle.std.specs.Prelude.{◌≡◌, ◌↔◌, ◌⊎◌, Any, Err, Some, string_bytes, IfOk, IfErr};
ghost use Rattle.std.specs.Prelude.{OnOk};
ghost use Rattle.elasticlunr.specs.History.{Commands};
ghost use Rattle.elasticlunr.specs.Index.{fields_of, plan_of, IsFailed, StandsFor};
ghost use Rattle.elasticlunr.specs.Printed.{IsPrintOf, IsTextAfter};
ghost use Rattle.elasticlunr_lang.specs.Known.{language_name};
ghost use Rattle.elasticlunr_text.specs.Text.{Bytes};
ghost use Rattle.elasticlunr_job.specs.Answer.{FailsAt, HasTooMany, IsLineOf, IsMadeBy};
ghost use Rattle.elasticlunr_job.specs.Answer.{IsAnswer, IsMadeInBy, IsMadeOf, IsPrintedLine};
ghost use Rattle.elasticlunr_job.specs.Answer.{IsRefused};
ghost use Rattle.elasticlunr_job.specs.Answer.{IsReadableOf, line, printed_text, refusal_text};
ghost use Rattle.elasticlunr_job.specs.Commands.{language_tokens};
ghost use Rattle.elasticlunr_job.specs.Filled.{Fits, IsBuiltFor, IsMadeUnder};
ghost use Rattle.elasticlunr_job_format.specs.JobTold.{job_told};
ghost use Rattle.elasticlunr_job_format.specs.Rules.{given_rules};
ghost use Rattle.elasticlunr_job_format.specs.JobError.{StopsOnlyBy, StopsWithReason};
ghost use Rattle.elasticlunr_job.specs.declared.outcome.Outcome.TheVariants.{Printed};
ghost use Rattle.elasticlunr_job_format.specs.declared.outcome.Refusal.TheVariants.{TooManyValues};
ghost use Rattle.elasticlunr_job_format.specs.declared.outcome.Refusal.TheVariants.{NotJson};

use crate::kept::{all_words, kept_lists, stems_by, values_with};
use crate::laws::an_index_is_built_for_a_job;
use crate::make::{Make, ReadableLine};
use crate::outcome::{JobError, Outcome, Refusal};
use elasticlunr::lang::{AnyLanguage, from_name};
use elasticlunr::{Index, IndexBuilder, IndexError};
use elasticlunr_job_format::job::{Job, parse};
use elasticlunr_job_format::read::read_json;
use elasticlunr_job_format::rules::WordRules;
use elasticlunr_stem_stage::language_pipeline;
use std::alloc::{AllocError, Global};

/// The text of an index.
fn text_of(index: &Index<AnyLanguage>, pretty: bool) -> Result<String, IndexError>
    ensures ok { IfOk result (λ text. (commands : Commands)
        → StandsFor language_name name_text index.now commands
        → IsTextAfter (printed_text pretty) (plan_of language_name name_text index.now)
        commands (string_bytes text)) }
    ensures print { IfOk result (λ text. (commands : Commands)
        → StandsFor language_name name_text index.now commands
        → IsPrintOf (plan_of language_name name_text index.now) commands (string_bytes text)) }
    ensures failed { (result ≡ Err IndexError.Failed) ↔ IsFailed index.now }
    ensures errors { IfErr result (λ e. (e ≡ IndexError.Failed) ⊎ (e ≡ IndexError.Memory)) }
{
    if pretty {
        index.to_json_pretty()
    } else {
        index.to_json()
    }
}

/// The text of an index, and a line feed. It is `Failed` of an index that has failed; of one that
/// works the only error is out of memory.
pub fn line_of(index: &Index<AnyLanguage>, pretty: bool) -> Result<String, IndexError>
    ensures ok { IfOk result (λ text. (commands : Commands)
        → StandsFor language_name name_text index.now commands
        → IsPrintedLine (string_bytes text) pretty (plan_of language_name name_text index.now)
        commands) }
    ensures print { IfOk result (λ text. (commands : Commands)
        → StandsFor language_name name_text index.now commands
        → IsPrintOf (plan_of language_name name_text index.now) commands (string_bytes text)) }
    ensures failed { (result ≡ Err IndexError.Failed) ↔ IsFailed index.now }
    ensures errors { IfErr result (λ e. (e ≡ IndexError.Failed) ⊎ (e ≡ IndexError.Memory)) }
{
    let mut text = text_of(index, pretty)?;
    text.push('\n')?;
    Ok(text)
}

/// What is made of an index.
fn made_of<M: Make>(
    maker: &M,
    index: &Index<AnyLanguage>,
    pretty: bool,
) -> Result<M::Made, JobError>
    ensures ok { IfOk result (λ made. (commands : Commands)
        → StandsFor language_name name_text index.now commands
        → M.makes maker.now made pretty (plan_of language_name name_text index.now) commands) }
    ensures err { IfErr result (λ stop. stop ≡ JobError.Memory) }
{
    match maker.make(index, pretty) {
        Ok(made) => Ok(made),
        Err(_) => Err(JobError::Memory),
    }
}

/// Does to a new index all that the job commands under rules: what is made of it then.
fn fill_and_make<M: Make>(
    alloc: Global,
    mut index: Index<AnyLanguage>,
    job: &Job<'_>,
    rules: &Option<WordRules<'_>>,
    maker: &M,
) -> Result<M::Made, JobError>
    ensures fits { OnOk result (Fits (fields_of index) (job_told job.now).docs) }
    ensures ok { IfOk result (λ made. (language : AnyLanguage)
        → IsBuiltFor (given_rules rules.now) (job_told job.now) language
        (plan_of language_name name_text index)
        (IsMadeUnder (given_rules rules.now) (job_told job.now).fields language_tokens leaves index)
        (StandsFor language_name name_text index)
        → IsMadeInBy (given_rules rules.now) (job_told job.now) language (M.makes maker.now made)) }
    ensures err { IfErr result (λ stop. ¬ IsFailed index
        → StopsOnlyBy TooManyValues (Any (HasTooMany (fields_of index)) (job_told job.now).docs)
        stop) }
{
    for doc in &job.docs {
        let kept = kept_lists(alloc, rules, &job.fields, &doc.values)?;
        let words = all_words(alloc, &kept)?;
        let values = values_with(alloc, &doc.values, &words, &kept)?;
        index.add_doc_with_tokens(doc.reference, &values)?;
    }
    for reference in &job.remove {
        index.remove_doc(*reference)?;
    }
    if job.compact {
        index.compact()?;
    }
    made_of(maker, &index, job.pretty)
}

/// What is made of a job's index, of which rules choose the words. Its texts are not copied, but
/// into the index; where rules leave words out, each word is.
pub fn job_made_by<M: Make>(
    alloc: Global,
    job: &Job<'_>,
    rules: &Option<WordRules<'_>>,
    maker: &M,
) -> Result<M::Made, JobError>
    ensures ok { IfOk result (λ made.
        IsMadeBy (given_rules rules.now) (job_told job.now) (M.makes maker.now made)) }
    ensures err { IfErr result (StopsWithReason (FailsAt (job_told job.now))) }
{
    let Some(language) = from_name(job.language) else {
        return Err(JobError::Refused(Refusal::UnknownLanguage));
    };
    let pipeline = language_pipeline(alloc, language, stems_by(rules))?;
    let index = IndexBuilder::with_language(alloc, language)?
        .with_pipeline(pipeline)
        .save_docs(job.save)
        .set_ref(job.reference_field)?
        .add_fields(&job.fields)?
        .build()?;
    an_index_is_built_for_a_job(&index);
    fill_and_make(alloc, index, job, rules, maker)
}

/// What is made of a job's index. Its texts are not copied, but into the index.
pub fn job_made<M: Make>(alloc: Global, job: &Job<'_>, maker: &M) -> Result<M::Made, JobError>
    ensures ok { IfOk result (λ made. IsMadeOf (job_told job.now) (M.makes maker.now made)) }
    ensures err { IfErr result (StopsWithReason (FailsAt (job_told job.now))) }
{
    job_made_by(alloc, job, &None, maker)
}

/// The text of a job's index, and a line feed. Its texts are not copied, but into the index.
pub fn job_line(alloc: Global, job: &Job<'_>) -> Result<String, JobError>
    ensures ok { IfOk result (λ text. IsLineOf (job_told job.now) (string_bytes text)) }
    ensures readable { IfOk result (λ text.
        IsReadableOf (job_told job.now) (string_bytes text)) }
    ensures err { IfErr result (StopsWithReason (FailsAt (job_told job.now))) }
{
    job_made(alloc, job, &ReadableLine)
}

/// The text of the index that the input asks for, and a line feed.
fn index_line(alloc: Global, bytes: Vec<u8>) -> Result<String, JobError>
    ensures ok { IfOk result (λ text. IsAnswer bytes.items Printed (string_bytes text)) }
    ensures err { IfErr result (StopsWithReason (IsRefused bytes.items)) }
{
    let value = read_json(alloc, &bytes)?;
    drop(bytes);
    let job = parse(alloc, &value)?;
    job_line(alloc, &job)
}

/// The line of a refusal, as a program writes it.
pub fn refusal_line(refusal: Refusal) -> &'static str
    ensures { result.now ≡ line (refusal_text refusal) }
{
    match refusal {
        Refusal::NotJson => "refused: not JSON\n",
        Refusal::NotAJob => "refused: not a job\n",
        Refusal::UnknownLanguage => "refused: unknown language\n",
        Refusal::DuplicateField => "refused: duplicate field\n",
        Refusal::TooManyValues => "refused: too many values\n",
    }
}

/// The outcome for an input, and what is written for it: the text of the index or the reason of the
/// refusal, and a line feed. The input is let go once it is read; its texts are not copied, but
/// into the index. The error is out of memory.
pub fn answer(alloc: Global, bytes: Vec<u8>) -> Result<(Outcome, String), AllocError>
    ensures { IfOk result (λ a. IsAnswer bytes.items a.0 (string_bytes a.1)) }
{
    match index_line(alloc, bytes) {
        Ok(text) => Ok((Outcome::Printed, text)),
        Err(JobError::Refused(refusal)) => {
            let text = String::from_str(alloc, refusal_line(refusal))?;
            Ok((Outcome::Refused(refusal), text))
        }
        Err(JobError::Memory) => Err(AllocError),
    }
}
