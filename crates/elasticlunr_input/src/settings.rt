//! Settings of an index that do not come from its input.
ghost use Rattle.std.specs.Prelude.{◌≡◌, ◌∷◌, map, not, option_map, string_bytes, unwrap_or, IfOk};
ghost use Rattle.elasticlunr.specs.Fields.{borrowed, has_name};
ghost use Rattle.elasticlunr_text.specs.Text.{bytes_of};
ghost use Rattle.elasticlunr_job_format.specs.JobTold.{job_told};
ghost use Rattle.elasticlunr_job_format.specs.Rules.{given_rules};
ghost use Rattle.elasticlunr_input.specs.Settled.{job_fields, job_reference, own_rules, settled};
ghost use Rattle.elasticlunr_input.specs.Settled.{settings_told, with_stored};

use crate::references::reference_name;
use elasticlunr_job::job::Job;
use elasticlunr_job::kept::has_name;
use elasticlunr_job::rules::WordRules;
use std::alloc::{AllocError, Global};

/// Which words are indexed, and whether they are stemmed, as the settings hold it.
#[derive(Drop)]
pub struct Rules {
    /// The members that are stored, and of which no word is indexed.
    pub stored: Vec<String>,
    /// How many characters a word may have; a longer one is left out.
    pub longest: Option<usize>,
    /// Whether words are stemmed, in a language whose stemmer has a table.
    pub stems: bool,
}

/// The settings of an index that do not come from its input: each replaces the input's.
#[derive(Drop)]
pub struct Settings {
    /// The key of a document's reference, or the name of its field.
    pub reference: Option<String>,
    /// The names of the fields, in order.
    pub fields: Option<Vec<String>>,
    /// The name of a language.
    pub language: Option<String>,
    /// Whether the index keeps no texts of documents.
    pub drops_texts: bool,
    /// Whether it is printed with a line for each member.
    pub pretty: bool,
    /// Which words are indexed, and whether they are stemmed: all, and none, where there are no
    /// rules.
    pub rules: Option<Rules>,
    /// Whether the reference is a field as well, whose words are indexed.
    pub indexes_reference: bool,
}

/// The texts of strings.
pub(crate) fn texts_of<'a>(alloc: Global, names: &'a [String]) -> Result<Vec<&'a str>, AllocError>
    ensures { IfOk result (λ texts. map (λ s. s.now) texts.items ≡ bytes_of names.now) }
{
    let mut texts = Vec::new(alloc);
    for name in names {
        texts.push(name.as_str())?;
    }
    Ok(texts)
}

/// The texts that are given, or else those of the job.
fn texts_or<'a>(
    alloc: Global,
    given: &'a Option<Vec<String>>,
    own: Vec<&'a str>,
) -> Result<Vec<&'a str>, AllocError>
    ensures { IfOk result (λ texts. map (λ s. s.now) texts.items
        ≡ unwrap_or (option_map (λ names. bytes_of names.items) given.now)
        (map (λ s. s.now) own.entry.items)) }
{
    match given {
        Some(names) => texts_of(alloc, names),
        None => Ok(own),
    }
}

/// The text that is given, or else that of the job.
pub(crate) fn text_or<'a>(given: &'a Option<String>, own: &'a str) -> &'a str
    ensures { result.now ≡ unwrap_or (option_map string_bytes given.now) own.now }
{
    match given {
        Some(text) => text.as_str(),
        None => own,
    }
}

/// The rules of the settings, as a reader of documents takes them.
pub(crate) fn rules_of<'a>(
    alloc: Global,
    rules: &'a Option<Rules>,
) -> Result<Option<WordRules<'a>>, AllocError>
    ensures { IfOk result (λ told. given_rules told ≡ own_rules rules.now) }
{
    match rules {
        Some(rules) => Ok(Some(WordRules {
            stored: texts_of(alloc, &rules.stored)?,
            longest: rules.longest,
            stems: rules.stems,
        })),
        None => Ok(None),
    }
}

/// Whether a name is neither that of the reference field nor that of one of these.
fn is_new(name: &str, reference_field: &str, fields: &[&str]) -> bool
    ensures { result ≡ not (has_name name.now (reference_field.now ∷ borrowed fields.now)) }
{
    reference_field != name && !has_name(name, fields)
}

/// The fields, and after them those that are only stored and not among them.
pub(crate) fn with_stored<'a>(
    alloc: Global,
    rules: &'a Option<Rules>,
    reference_field: &str,
    fields: Vec<&'a str>,
) -> Result<Vec<&'a str>, AllocError>
    ensures { IfOk result (λ all. borrowed all.items
        ≡ with_stored (own_rules rules.now) reference_field.now (borrowed fields.entry.items)) }
{
    let Some(rules) = rules else {
        return Ok(fields);
    };
    let mut more = texts_of(alloc, &rules.stored)?;
    more.retain(|name| is_new(*name, reference_field, &fields));
    let mut all = fields;
    all.extend_from_slice(&more)?;
    Ok(all)
}

/// The fields of a job with the settings.
fn job_fields<'a>(
    alloc: Global,
    job: &Job<'a>,
    settings: &'a Settings,
) -> Result<Vec<&'a str>, AllocError>
    ensures { IfOk result (λ fields. borrowed fields.items
        ≡ job_fields (settings_told settings.now) (job_told job.now)) }
{
    let own = Vec::from_slice(alloc, &job.fields)?;
    let fields = texts_or(alloc, &settings.fields, own)?;
    let key = text_or(&settings.reference, job.reference_field);
    with_stored(alloc, &settings.rules, key, fields)
}

/// The name under which the index of a job has the references.
pub(crate) fn job_reference<'a>(
    alloc: Global,
    job: &Job<'a>,
    settings: &'a Settings,
) -> Result<String, AllocError>
    ensures { IfOk result (λ name. string_bytes name
        ≡ job_reference (settings_told settings.now) (job_told job.now)) }
{
    let key = text_or(&settings.reference, job.reference_field);
    if !settings.indexes_reference {
        return String::from_str(alloc, key);
    }
    let fields = job_fields(alloc, job, settings)?;
    reference_name(alloc, key, &fields)
}

/// The job with the settings instead of what it says itself; its index has the references under
/// this name.
pub(crate) fn settle<'a>(
    alloc: Global,
    job: Job<'a>,
    settings: &'a Settings,
    reference_field: &'a str,
) -> Result<Job<'a>, AllocError>
    ensures { IfOk result (λ settled_job.
        reference_field.now ≡ job_reference (settings_told settings.now) (job_told job.entry)
        → job_told settled_job ≡ settled (settings_told settings.now) (job_told job.entry)) }
{
    Ok(Job {
        fields: job_fields(alloc, &job, settings)?,
        docs: job.docs,
        reference_field,
        save: job.save && !settings.drops_texts,
        language: text_or(&settings.language, job.language),
        pretty: job.pretty || settings.pretty,
        remove: job.remove,
        compact: job.compact,
    })
}
