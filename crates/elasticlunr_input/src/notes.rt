//! What is suspicious in documents that are fine.
ghost use Rattle.std.specs.Prelude.{◌≡◌, ◌+◌, ◌++◌, ◌||◌, ℕ, filter, length, map, min, nat_lt};
ghost use Rattle.std.specs.Prelude.{IfOk, OnOk};
ghost use Rattle.std.specs.Str.{bytes_eq, chars};
ghost use Rattle.elasticlunr_lang.specs.Words.{words};
ghost use Rattle.elasticlunr_text.specs.Text.{Bytes, bytes_of, is_listed};
ghost use Rattle.elasticlunr_job_format.specs.ObjectsTold.{object_told, options_told, texts_told};
ghost use Rattle.elasticlunr_input.specs.Counts.{token_count};
ghost use Rattle.elasticlunr_input.specs.Noted.{document_warnings, has_value, HasSameLimits};
ghost use Rattle.elasticlunr_input.specs.Noted.{HasSameSeen, HasSameWords, is_expected};
ghost use Rattle.elasticlunr_input.specs.Noted.{is_only_stored, long_warnings, longest_under};
ghost use Rattle.elasticlunr_input.specs.Noted.{new_keys, stored_under, texts_keys, too_long_in};
ghost use Rattle.elasticlunr_input.specs.Noted.{too_long_of, with_text};
ghost use Rattle.elasticlunr_input.specs.Settled.{settings_told};
ghost use Rattle.elasticlunr_input.specs.Warnings.{end_warnings, has_text, is_known};
ghost use Rattle.elasticlunr_input.specs.Warnings.{is_property, unindexed_text, unindexed_warnings};
ghost use Rattle.elasticlunr_input.specs.Warnings.{last_number, line_feed_warnings};
ghost use Rattle.elasticlunr_input.specs.Warnings.{NumbersReference, property_document_warnings};
ghost use Rattle.elasticlunr_input.specs.Warnings.{reference_warnings, replacing_warnings};
ghost use Rattle.elasticlunr_input.specs.Warnings.{property_names, property_warnings};
ghost use Rattle.elasticlunr_input.specs.Warnings.{textless_warnings, warnings_of, WarnOfWordless};
ghost use Rattle.serde_json.specs.View.{view};

use crate::counts::Counts;
use crate::settings::Settings;
use elasticlunr_diagnostics::message::counted;
use elasticlunr_documents::objects::{Object, Options};
use elasticlunr_lang::tokenize_whitespace;
use serde_json::Value;
use std::alloc::{AllocError, Global};
use std::collections::{BTreeMap, BTreeSet};

/// Why a document or a field should not have such a name.
const OF_EVERY_OBJECT: &str =
    "every JavaScript object has a property of this name, so elasticlunr.js fails on it";

/// The names of the properties that each object of JavaScript has: a script that keeps documents in
/// an object takes them for what is there already.
fn property_names() -> [&'static str; 12]
    ensures { map (λ name. name.now) result ≡ property_names }
{
    [
        "__defineGetter__",
        "__defineSetter__",
        "__lookupGetter__",
        "__lookupSetter__",
        "__proto__",
        "constructor",
        "hasOwnProperty",
        "isPrototypeOf",
        "propertyIsEnumerable",
        "toLocaleString",
        "toString",
        "valueOf",
    ]
}

/// Whether each object of JavaScript has a property of this name.
fn is_property(name: &str) -> bool
    ensures { result ≡ is_property name.now }
{
    property_names().contains(&name)
}

/// Whether a word has more characters than this.
fn is_longer(word: &str, longest: usize) -> bool
    ensures { result ≡ nat_lt longest (length (chars word.now)) }
{
    word.chars().count() > longest
}

/// How many words of a text have more characters than this.
fn longer_words(alloc: Global, longest: usize, text: &str) -> Result<usize, AllocError>
    ensures { IfOk result (λ count. count
        ≡ length (filter (λ word. nat_lt longest (length word)) (words (chars text.now)))) }
{
    let mut words = tokenize_whitespace(alloc, text)?;
    words.retain(|word| is_longer(word.as_str(), longest));
    Ok(words.len())
}

/// Whether a field has one of these names.
fn is_stored(names: &[String], field: &str) -> bool
    ensures { result ≡ is_listed field.now (bytes_of names.now) }
{
    names.iter().any(|name| field == name.as_str())
}

/// What was seen of documents, and what is suspicious in them.
#[derive(Drop)]
pub struct Notes {
    alloc: Global,
    /// The number of the last document of each reference.
    references: BTreeMap<String, usize>,
    /// Whether a field has a text, by its number.
    has_text: Vec<bool>,
    /// The keys that are not warned of, where the fields are those of the first object.
    known: Option<BTreeSet<String>>,
    /// How many characters a word may have, where the settings say it.
    longest: Option<usize>,
    /// Whether a field is only stored, by its number, where words have a longest.
    is_stored: Vec<bool>,
    /// How many words are longer.
    longer: usize,
    /// How many documents were taken.
    taken: usize,
    /// How many documents the index has.
    pub documents: usize,
    /// How many tokens have a posting in the index.
    tokens: usize,
    /// What is suspicious: of each document, in the order in which they came, of the fields, and
    /// then the documents without a token.
    pub warnings: Vec<String>,
}

impl Notes {
    /// Of no document.
    pub fn new(alloc: Global) -> Notes {
        Notes {
            alloc,
            references: BTreeMap::new(alloc),
            has_text: Vec::new(alloc),
            known: None,
            longest: None,
            is_stored: Vec::new(alloc),
            longer: 0,
            taken: 0,
            documents: 0,
            tokens: 0,
            warnings: Vec::new(alloc),
        }
    }

    /// How many tokens have a posting in the index; one that several fields have counts once.
    pub fn token_count(&self) -> usize
        ensures { result ≡ token_count self.now }
    {
        self.tokens
    }

    /// Takes how objects are read, before the first one.
    pub(crate) fn begin(
        &mut self,
        options: &Options<'_>,
        settings: &Settings,
    ) -> Result<(), AllocError>
        ensures longest { OnOk result (self.new.longest
            ≡ longest_under (settings_told settings.now).rules self.old.longest) }
        ensures stored { OnOk result (self.new.is_stored.items ≡ self.old.is_stored.items
            ++ stored_under (settings_told settings.now).rules (options_told options.now).fields) }
        ensures known { OnOk result ((key : Bytes) → is_known self.new key
            ≡ is_expected (settings_told settings.now) (options_told options.now) key) }
        ensures seen { HasSameSeen self.old self.new }
    {
        self.rules(&options.fields, settings)?;
        if settings.fields.is_some() {
            self.known = None;
            return Ok(());
        }
        let mut known = BTreeSet::new(self.alloc);
        known.insert(String::from_str(self.alloc, options.reference_key)?)?;
        for field in &options.fields {
            known.insert(String::from_str(self.alloc, field)?)?;
        }
        self.known = Some(known);
        Ok(())
    }

    /// Takes which words are indexed of these fields, before the first document.
    pub(crate) fn rules(&mut self, fields: &[&str], settings: &Settings) -> Result<(), AllocError>
        ensures longest { OnOk result (self.new.longest
            ≡ longest_under (settings_told settings.now).rules self.old.longest) }
        ensures stored { OnOk result (self.new.is_stored.items ≡ self.old.is_stored.items
            ++ stored_under (settings_told settings.now).rules (texts_told fields.now)) }
        ensures seen { HasSameSeen self.old self.new }
        ensures known { self.new.known ≡ self.old.known }
    {
        let Some(rules) = &settings.rules else {
            return Ok(());
        };
        self.longest = rules.longest;
        for field in fields {
            self.is_stored.push(is_stored(&rules.stored, field))?;
        }
        Ok(())
    }

    /// Takes the next document, as read of an object.
    pub(crate) fn object(&mut self, object: &Object<'_>) -> Result<(), AllocError>
        ensures taken { OnOk result (self.new.taken ≡ min (self.old.taken + 1) usize.MAX) }
        ensures warnings { OnOk result (let reference = (object_told object.now).reference in
            warnings_of self.new ≡ warnings_of self.old ++ document_warnings self.new.taken
            reference (last_number self.old reference) (is_known self.old)
            (texts_keys (view object.now.value.now))) }
        ensures number { OnOk result (NumbersReference self.old self.new
            (object_told object.now).reference self.new.taken) }
        ensures known { OnOk result ((key : Bytes) → is_known self.new key ≡ (is_known self.old key
            || is_listed key (texts_keys (view object.now.value.now)))) }
        ensures texts { OnOk result ((number : ℕ) → has_text self.new number
            ≡ (has_text self.old number || has_value (object_told object.now).values number)) }
        ensures words { OnOk result (self.new.longer ≡ min (self.old.longer
            + too_long_of self.old (object_told object.now).values) usize.MAX) }
        ensures limits { HasSameLimits self.old self.new }
    {
        let reference = object.reference.as_str();
        let values = object.values(self.alloc)?;
        self.document(reference, &values)?;
        self.members(reference, object.value)?;
        Ok(())
    }

    /// Takes the keys of the texts of the object that was taken last.
    fn members(&mut self, reference: &str, object: &Value) -> Result<(), AllocError>
        ensures warnings { OnOk result (warnings_of self.new ≡ warnings_of self.old
            ++ map (unindexed_text self.old.taken reference.now)
            (new_keys (is_known self.old) (texts_keys (view object.now)))) }
        ensures known { OnOk result ((key : Bytes) → is_known self.new key
            ≡ (is_known self.old key || is_listed key (texts_keys (view object.now)))) }
        ensures taken { OnOk result (self.new.taken ≡ self.old.taken) }
        ensures references { OnOk result (self.new.references ≡ self.old.references) }
        ensures words { HasSameWords self.old self.new }
    {
        let Some(members) = object.as_object() else {
            return Ok(());
        };
        for (key, member) in members.iter() {
            if !member.is_string() {
                continue;
            }
            let name = key.as_str();
            self.text_under(reference, name)?;
        }
        Ok(())
    }

    /// Takes the key of a text of the document that was taken last.
    fn text_under(&mut self, reference: &str, key: &str) -> Result<(), AllocError>
        ensures warnings { OnOk result (warnings_of self.new ≡ warnings_of self.old
            ++ unindexed_warnings (is_known self.old key.now)
            self.old.taken reference.now key.now) }
        ensures known { OnOk result ((k : Bytes)
            → is_known self.new k ≡ (is_known self.old k || bytes_eq key.now k)) }
        ensures taken { self.new.taken ≡ self.old.taken }
        ensures references { self.new.references ≡ self.old.references }
        ensures words { HasSameWords self.old self.new }
    {
        let number = self.taken;
        let Some(known) = &mut self.known else {
            return Ok(());
        };
        if known.contains(key) {
            return Ok(());
        }
        known.insert(String::from_str(self.alloc, key)?)?;
        let why =
            "the first document has no string there, so it is not a field; `--fields` names fields";
        let said = format!(in self.alloc;
            "document {number} (\"{reference}\"): the member \"{key}\" is not indexed: {why}"
        )?;
        self.warnings.push(said)?;
        Ok(())
    }

    /// Takes the next document.
    pub(crate) fn document(&mut self, reference: &str, values: &[&str]) -> Result<(), AllocError>
        ensures taken { self.new.taken ≡ min (self.old.taken + 1) usize.MAX }
        ensures warnings { OnOk result (warnings_of self.new ≡ warnings_of self.old
            ++ reference_warnings self.new.taken reference.now
            (last_number self.old reference.now)) }
        ensures number { OnOk result
            (NumbersReference self.old self.new reference.now self.new.taken) }
        ensures texts { OnOk result ((number : ℕ) → has_text self.new number
            ≡ (has_text self.old number || has_value (texts_told values.now) number)) }
        ensures words { OnOk result (self.new.longer
            ≡ min (self.old.longer + too_long_of self.old (texts_told values.now)) usize.MAX) }
        ensures known { self.new.known ≡ self.old.known }
        ensures limits { HasSameLimits self.old self.new }
    {
        self.taken = self.taken.saturating_add(1);
        self.reference(reference)?;
        self.values(values)
    }

    /// Takes the reference of the document of the last number.
    fn reference(&mut self, reference: &str) -> Result<(), AllocError>
        ensures warnings { OnOk result (warnings_of self.new ≡ warnings_of self.old
            ++ reference_warnings self.old.taken reference.now
            (last_number self.old reference.now)) }
        ensures number { OnOk result
            (NumbersReference self.old self.new reference.now self.old.taken) }
        ensures taken { self.new.taken ≡ self.old.taken }
        ensures seen { self.new.has_text ≡ self.old.has_text }
        ensures words { HasSameWords self.old self.new }
        ensures known { self.new.known ≡ self.old.known }
    {
        self.replacing(reference)?;
        self.line_feed(reference)?;
        self.property(reference)
    }

    /// Takes whether the document replaces an earlier one.
    fn replacing(&mut self, reference: &str) -> Result<(), AllocError>
        ensures warnings { OnOk result (warnings_of self.new ≡ warnings_of self.old
            ++ replacing_warnings self.old.taken reference.now
            (last_number self.old reference.now)) }
        ensures number { OnOk result
            (NumbersReference self.old self.new reference.now self.old.taken) }
        ensures taken { self.new.taken ≡ self.old.taken }
        ensures seen { self.new.has_text ≡ self.old.has_text }
        ensures words { HasSameWords self.old self.new }
        ensures known { self.new.known ≡ self.old.known }
    {
        let number = self.taken;
        let key = String::from_str(self.alloc, reference)?;
        let Some(before) = self.references.insert(key, number)? else {
            return Ok(());
        };
        let said = format!(in self.alloc;
            "document {number} (\"{reference}\") replaces document {before}, which has the same reference"
        )?;
        self.warnings.push(said)?;
        Ok(())
    }

    /// Takes whether the reference has a line feed.
    fn line_feed(&mut self, reference: &str) -> Result<(), AllocError>
        ensures warnings { OnOk result (warnings_of self.new
            ≡ warnings_of self.old ++ line_feed_warnings self.old.taken reference.now) }
        ensures references { self.new.references ≡ self.old.references }
        ensures taken { self.new.taken ≡ self.old.taken }
        ensures seen { self.new.has_text ≡ self.old.has_text }
        ensures words { HasSameWords self.old self.new }
        ensures known { self.new.known ≡ self.old.known }
    {
        if !reference.as_bytes().contains(&b'\n') {
            return Ok(());
        }
        let number = self.taken;
        let said = format!(in self.alloc;
            "document {number} (\"{reference}\"): its reference has a line feed, so `search` prints it as several lines"
        )?;
        self.warnings.push(said)?;
        Ok(())
    }

    /// Takes whether the reference has the name of a property.
    fn property(&mut self, reference: &str) -> Result<(), AllocError>
        ensures warnings { OnOk result (warnings_of self.new
            ≡ warnings_of self.old ++ property_document_warnings self.old.taken reference.now) }
        ensures references { self.new.references ≡ self.old.references }
        ensures taken { self.new.taken ≡ self.old.taken }
        ensures seen { self.new.has_text ≡ self.old.has_text }
        ensures words { HasSameWords self.old self.new }
        ensures known { self.new.known ≡ self.old.known }
    {
        if !is_property(reference) {
            return Ok(());
        }
        let (number, why) = (self.taken, OF_EVERY_OBJECT);
        let said = format!(in self.alloc; "document {number} (\"{reference}\"): {why}")?;
        self.warnings.push(said)?;
        Ok(())
    }

    /// Takes the values of a document.
    fn values(&mut self, values: &[&str]) -> Result<(), AllocError>
        ensures warnings { self.new.warnings ≡ self.old.warnings }
        ensures references { self.new.references ≡ self.old.references }
        ensures taken { self.new.taken ≡ self.old.taken }
        ensures texts { OnOk result ((number : ℕ) → has_text self.new number
            ≡ (has_text self.old number || has_value (texts_told values.now) number)) }
        ensures words { OnOk result (self.new.longer
            ≡ min (self.old.longer + too_long_of self.old (texts_told values.now)) usize.MAX) }
        ensures known { self.new.known ≡ self.old.known }
        ensures limits { HasSameLimits self.old self.new }
    {
        for (field, value) in values.iter().enumerate() {
            self.text(field, !value.is_empty())?;
            self.value(field, value)?;
        }
        Ok(())
    }

    /// Takes whether a document has a text in the field of this number.
    fn text(&mut self, field: usize, is_text: bool) -> Result<(), AllocError>
        ensures texts { OnOk result
            (self.new.has_text.items ≡ with_text self.old.has_text.items field is_text) }
        ensures warnings { self.new.warnings ≡ self.old.warnings }
        ensures references { self.new.references ≡ self.old.references }
        ensures taken { self.new.taken ≡ self.old.taken }
        ensures words { self.new.longer ≡ self.old.longer }
        ensures known { self.new.known ≡ self.old.known }
        ensures limits { HasSameLimits self.old self.new }
    {
        let Some(has_text) = self.has_text.get_mut(field) else {
            self.has_text.push(is_text)?;
            return Ok(());
        };
        *has_text = *has_text || is_text;
        Ok(())
    }

    /// Takes how many words are too long of the value of the field of this number.
    fn value(&mut self, field: usize, value: &str) -> Result<(), AllocError>
        ensures warnings { self.new.warnings ≡ self.old.warnings }
        ensures references { self.new.references ≡ self.old.references }
        ensures taken { self.new.taken ≡ self.old.taken }
        ensures seen { self.new.has_text ≡ self.old.has_text }
        ensures words { OnOk result (self.new.longer ≡ min (self.old.longer
            + too_long_in self.old.longest (is_only_stored self.old field) value.now) usize.MAX) }
        ensures known { self.new.known ≡ self.old.known }
        ensures limits { HasSameLimits self.old self.new }
    {
        let longer = self.too_long(field, value)?;
        self.longer = self.longer.saturating_add(longer);
        Ok(())
    }

    /// How many words of a value are too long, where the field of this number is indexed.
    fn too_long(&self, field: usize, value: &str) -> Result<usize, AllocError>
        ensures { IfOk result (λ count. count
            ≡ too_long_in self.now.longest (is_only_stored self.now field) value.now) }
    {
        let Some(longest) = self.longest else {
            return Ok(0);
        };
        if self.is_only_stored(field) {
            return Ok(0);
        }
        let longer = longer_words(self.alloc, longest, value)?;
        Ok(longer)
    }

    /// Whether the field of this number is only stored.
    fn is_only_stored(&self, field: usize) -> bool
        ensures { result ≡ is_only_stored self.now field }
    {
        match self.is_stored.get(field) {
            Some(is_stored) => *is_stored,
            None => false,
        }
    }

    /// Takes the end of all words.
    pub(crate) fn long_words(&mut self) -> Result<(), AllocError>
        ensures { OnOk result (warnings_of self.new ≡ warnings_of self.old
            ++ long_warnings self.old.longest self.old.longer) }
    {
        let (Some(longest), true) = (self.longest, self.longer > 0) else {
            return Ok(());
        };
        let words = counted(self.alloc, self.longer, "word")?;
        let most = counted(self.alloc, longest, "character")?;
        let said = format!(in self.alloc;
            "{words} of more than {most}: no search finds such a word"
        )?;
        self.warnings.push(said)?;
        Ok(())
    }

    /// Takes the end of the documents, and the fields.
    pub(crate) fn end(&mut self, fields: &[&str]) -> Result<(), AllocError>
        ensures warnings { OnOk result (warnings_of self.new
            ≡ warnings_of self.old ++ end_warnings self.old (texts_told fields.now)) }
        ensures words { HasSameWords self.old self.new }
    {
        if self.taken == 0 {
            self.warnings.push(String::from_str(
                self.alloc,
                "the index is empty: there is no document",
            )?)?;
            return Ok(());
        }
        for (number, field) in fields.iter().enumerate() {
            self.field(number, field)?;
        }
        Ok(())
    }

    /// Takes a field and its number, after the last document.
    fn field(&mut self, number: usize, field: &str) -> Result<(), AllocError>
        ensures warnings { OnOk result (warnings_of self.new ≡ warnings_of self.old
            ++ (textless_warnings (has_text self.old number) field.now
            ++ property_warnings field.now)) }
        ensures seen { self.new.has_text ≡ self.old.has_text }
        ensures words { HasSameWords self.old self.new }
    {
        self.field_text(number, field)?;
        self.field_name(field)
    }

    /// Takes whether a document has a text in a field.
    fn field_text(&mut self, number: usize, field: &str) -> Result<(), AllocError>
        ensures warnings { OnOk result (warnings_of self.new
            ≡ warnings_of self.old ++ textless_warnings (has_text self.old number) field.now) }
        ensures seen { self.new.has_text ≡ self.old.has_text }
        ensures words { HasSameWords self.old self.new }
    {
        if self.is_filled(number) {
            return Ok(());
        }
        let said = format!(in self.alloc; "no document has a text in the field \"{field}\"")?;
        self.warnings.push(said)?;
        Ok(())
    }

    /// Whether a document has a text in the field with this number.
    fn is_filled(&self, number: usize) -> bool
        ensures { result ≡ has_text self.now number }
    {
        match self.has_text.get(number) {
            Some(seen) => *seen,
            None => false,
        }
    }

    /// Takes the name of a field.
    fn field_name(&mut self, field: &str) -> Result<(), AllocError>
        ensures warnings { OnOk result (warnings_of self.new
            ≡ warnings_of self.old ++ property_warnings field.now) }
        ensures seen { self.new.has_text ≡ self.old.has_text }
        ensures words { HasSameWords self.old self.new }
    {
        if !is_property(field) {
            return Ok(());
        }
        let why = OF_EVERY_OBJECT;
        let said = format!(in self.alloc; "the field \"{field}\": {why}")?;
        self.warnings.push(said)?;
        Ok(())
    }

    /// Takes what the index holds, after the fields.
    pub(crate) fn count(&mut self, counts: &Counts) -> Result<(), AllocError>
        ensures documents { OnOk result (self.new.documents ≡ counts.now.documents) }
        ensures tokens { OnOk result (token_count self.new ≡ counts.now.tokens) }
        ensures warnings { OnOk result (WarnOfWordless (bytes_of counts.now.without_token.items)
            (warnings_of self.old) (warnings_of self.new)) }
    {
        self.without_token(&counts.without_token)?;
        self.documents = counts.documents;
        self.tokens = counts.tokens;
        Ok(())
    }

    /// Takes the references of the documents that have no token.
    fn without_token(&mut self, references: &[String]) -> Result<(), AllocError>
        ensures { OnOk result (WarnOfWordless (bytes_of references.now) (warnings_of self.old)
            (warnings_of self.new)) }
    {
        let mut found = Vec::with_capacity(self.alloc, references.len())?;
        for reference in references {
            let number = self.references.get(reference.as_str()).copied();
            found.push((number.unwrap_or(0), reference.as_str()))?;
        }
        found.sort_unstable();
        for (number, reference) in found {
            let said = format!(in self.alloc;
                "document {number} (\"{reference}\") has no word that can be found"
            )?;
            self.warnings.push(said)?;
        }
        Ok(())
    }
}
