//! The index of an input in the flat form.
ghost use Rattle.std.specs.Prelude.{◌≡◌, Any, Err, map, string_bytes, IfErr, IfOk, OnOk};
ghost use Rattle.elasticlunr.specs.History.{Commands};
ghost use Rattle.elasticlunr.specs.Index.{choices_of, fields_of, plan_of, IsFailed, StandsFor};
ghost use Rattle.elasticlunr.specs.Index.{IsDocumentWithTokens};
ghost use Rattle.elasticlunr.specs.Known.{language_name};
ghost use Rattle.elasticlunr.specs.Words.{words};
ghost use Rattle.elasticlunr_c_calls.specs.Carried.{field_told, source_told};
ghost use Rattle.elasticlunr_c_calls.specs.Indexes.{FailsAt, Fits, HasTooMany, IsBuiltFor};
ghost use Rattle.elasticlunr_c_calls.specs.Indexes.{IsIndexed, IsMadeIn, IsMadeOf, IsMalformed};
ghost use Rattle.elasticlunr_c_calls.specs.Indexes.{IsTextOf, NamesAny};
ghost use Rattle.elasticlunr_c_calls.specs.Languages.{name_in, IsNamed};
ghost use Rattle.elasticlunr_c_calls.specs.declared.language.InputLanguage.{InputLanguage};
ghost use Rattle.elasticlunr_flat.specs.Flat.{own};
ghost use Rattle.elasticlunr_flat.specs.Told.{input_told, language_told, texts_told, tokens_told};
ghost use Rattle.elasticlunr_flat.specs.Told.{value_told};
ghost use Rattle.elasticlunr_flat.specs.declared.fault.FlatError.TheVariants.{Malformed};
ghost use Rattle.elasticlunr_job.specs.Answer.{NamesLanguage};
ghost use Rattle.elasticlunr_job_format.specs.JobError.{StopsOnlyBy, StopsWithReason};
ghost use Rattle.elasticlunr_job_format.specs.declared.outcome.Refusal.TheVariants.{TooManyValues};
ghost use Rattle.elasticlunr_job_format.specs.declared.outcome.Refusal.TheVariants.{UnknownLanguage};

use crate::language::InputLanguage;
use crate::make::{CompactText, Make};
use elasticlunr::lang::{AnyLanguage, from_name};
use elasticlunr::laws::given::values_with_tokens_make_what_a_language_makes;
use elasticlunr::{FieldValue, Index, IndexBuilder, TokenSource};
use elasticlunr_flat::{FlatError, GivenTokens, Input, LanguageName, Value, read_input};
use elasticlunr_job::answer::refusal_line;
use elasticlunr_job::outcome::{JobError, Outcome, Refusal};
use std::alloc::{AllocError, Global};

/// Where an index takes the tokens of a value from.
fn source_of<'a>(tokens: &'a GivenTokens<'a>) -> TokenSource<'a>
    ensures { source_told result ≡ tokens_told tokens.now }
{
    match tokens {
        GivenTokens::FromText => TokenSource::FromText,
        GivenTokens::IntoPipeline(tokens) => TokenSource::IntoPipeline(tokens),
        GivenTokens::AsGiven(tokens) => TokenSource::AsGiven(tokens),
    }
}

/// The values of a document, as an index takes them.
fn values_of<'a>(alloc: Global, values: &'a [Value<'a>]) -> Result<Vec<FieldValue<'a>>, AllocError>
    ensures { IfOk result (λ fields. map field_told fields.items ≡ map value_told values.now) }
{
    let mut fields = Vec::with_capacity(alloc, values.len())?;
    for value in values {
        fields.push(FieldValue {
            text: value.text,
            tokens: source_of(&value.tokens),
        })?;
    }
    Ok(fields)
}

/// The language that is named.
fn language_of(alloc: Global, name: &LanguageName<'_>) -> Result<InputLanguage, JobError>
    ensures named { IfOk result (λ language. IsNamed (language_told name.now) language) }
    ensures err { IfErr result (StopsOnlyBy UnknownLanguage
        (¬ NamesAny (language_told name.now))) }
{
    match name {
        LanguageName::BuiltIn(name) => Ok(InputLanguage::BuiltIn(built_in(name)?)),
        LanguageName::Own { name, stages } => own_language(alloc, name, stages),
        LanguageName::Stemmed(name) => Ok(InputLanguage::Stemmed(built_in(name)?)),
    }
}

/// The built-in language of this name.
fn built_in(name: &str) -> Result<AnyLanguage, JobError>
    ensures named { IfOk result (λ language. language_name language ≡ name.now) }
    ensures err { IfErr result (StopsOnlyBy UnknownLanguage (¬ NamesLanguage name.now)) }
{
    match from_name(name) {
        Some(language) => Ok(language),
        None => Err(JobError::Refused(Refusal::UnknownLanguage)),
    }
}

/// The custom language of an input.
fn own_language(alloc: Global, name: &str, stages: &[&str]) -> Result<InputLanguage, JobError>
    ensures named { IfOk result (λ language. IsNamed (own name.now (texts_told stages.now))
        language) }
    ensures err { IfErr result (λ stop. stop ≡ JobError.Memory) }
{
    let name = String::from_str(alloc, name)?;
    let mut names = Vec::with_capacity(alloc, stages.len())?;
    for stage in stages {
        names.push(String::from_str(alloc, *stage)?)?;
    }
    Ok(InputLanguage::Own {
        name,
        stages: names,
    })
}

/// What is made of an index.
fn made_by<M: Make>(
    alloc: Global,
    maker: &M,
    index: &Index<InputLanguage>,
) -> Result<M::Made, JobError>
    ensures ok { IfOk result (λ made. (commands : Commands)
        → StandsFor name_in name_text index.now commands
        → M.makes maker.now made (plan_of name_in name_text index.now) commands) }
    ensures err { IfErr result (λ stop. stop ≡ JobError.Memory) }
{
    match maker.make(alloc, index) {
        Ok(made) => Ok(made),
        Err(_) => Err(JobError::Memory),
    }
}

/// Adds all documents to a new index: what is made of it then.
fn fill_and_make<M: Make>(
    alloc: Global,
    mut index: Index<InputLanguage>,
    input: &Input<'_>,
    maker: &M,
) -> Result<M::Made, JobError>
    ensures fits { OnOk result (Fits (fields_of index) (input_told input.now).documents) }
    ensures ok { IfOk result (λ made. (language : InputLanguage)
        → IsBuiltFor field_told (input_told input.now) language (plan_of name_in name_text index)
        (IsDocumentWithTokens (λ _. words) leaves index) (StandsFor name_in name_text index)
        → IsMadeIn (input_told input.now) language (M.makes maker.now made)) }
    ensures err { IfErr result (λ stop. ¬ IsFailed index
        → StopsOnlyBy TooManyValues
        (Any (HasTooMany (fields_of index)) (input_told input.now).documents) stop) }
{
    for document in &input.documents {
        let values = values_of(alloc, &document.values)?;
        index.add_doc_with_tokens(document.reference, &values)?;
    }
    made_by(alloc, maker, &index)
}

/// What is made of the index that an input asks for.
pub(crate) fn made_of<M: Make>(
    alloc: Global,
    input: &Input<'_>,
    maker: &M,
) -> Result<M::Made, JobError>
    ensures ok { IfOk result (λ made. IsMadeOf (input_told input.now) (M.makes maker.now made)) }
    ensures err { IfErr result (StopsWithReason (FailsAt (input_told input.now))) }
{
    let language = language_of(alloc, &input.language)?;
    let index = IndexBuilder::with_language(alloc, language)?
        .save_docs(input.save)
        .set_ref(input.reference_field)?
        .add_fields(&input.fields)?
        .build()?;
    values_with_tokens_make_what_a_language_makes(&index);
    fill_and_make(alloc, index, input, maker)
}

/// The text of the index that an input asks for.
pub fn index_text(alloc: Global, input: &Input<'_>) -> Result<String, JobError>
    ensures ok { IfOk result (λ text. IsTextOf (input_told input.now) (string_bytes text)) }
    ensures err { IfErr result (StopsWithReason (FailsAt (input_told input.now))) }
{
    made_of(alloc, input, &CompactText)
}

/// The outcome for bytes in the flat form, and what answers them: the text of the index, without a
/// line feed, or the line of a refusal. The texts of the bytes are copied into the index alone.
pub fn index_documents(alloc: Global, bytes: &[u8]) -> Result<(Outcome, String), FlatError>
    ensures ok { IfOk result (λ a. IsIndexed bytes.now a.0 (string_bytes a.1)) }
    ensures malformed { result ≡ Err Malformed → IsMalformed bytes.now }
{
    let input = read_input(alloc, bytes)?;
    match index_text(alloc, &input) {
        Ok(text) => Ok((Outcome::Printed, text)),
        Err(JobError::Refused(refusal)) => {
            let line = String::from_str(alloc, refusal_line(refusal))?;
            Ok((Outcome::Refused(refusal), line))
        }
        Err(JobError::Memory) => Err(FlatError::Memory),
    }
}
