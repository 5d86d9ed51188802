//! What is indexed, and what is searched for. The texts lie in the bytes that were read.

/// Documents, and how their index is made.
#[derive(Drop)]
pub struct Input<'a> {
    pub language: LanguageName<'a>,
    /// The name under which a stored document has its reference.
    pub reference_field: &'a str,
    /// Whether values are stored.
    pub save: bool,
    pub fields: Vec<&'a str>,
    pub documents: Vec<Document<'a>>,
}

/// Documents whose index is cut into pieces.
#[derive(Drop)]
pub struct Cutting<'a> {
    /// The field of the titles.
    pub title: &'a str,
    /// How many bytes a piece may have.
    pub size: u32,
    pub input: Input<'a>,
}

/// A language: a built-in one by its name, or a custom one.
#[derive(Drop)]
pub enum LanguageName<'a> {
    BuiltIn(&'a str),
    /// Its name, and the names of its stages.
    Own { name: &'a str, stages: Vec<&'a str> },
    /// A built-in one with its stemmer after its stages.
    Stemmed(&'a str),
}

/// A document: its reference, and its values in the order of the fields.
#[derive(Drop)]
pub struct Document<'a> {
    pub reference: &'a str,
    pub values: Vec<Value<'a>>,
}

/// The text of a document for a field, and the tokens that come with it.
#[derive(Drop)]
pub struct Value<'a> {
    pub text: &'a str,
    pub tokens: GivenTokens<'a>,
}

/// The tokens of a value.
#[derive(Drop)]
pub enum GivenTokens<'a> {
    /// None come with it: the tokenizer produces them of the text.
    FromText,
    /// These go through the pipeline.
    IntoPipeline(Vec<&'a str>),
    /// These are indexed as they are.
    AsGiven(Vec<&'a str>),
}

/// What is searched for in the text of an index.
#[derive(Drop)]
pub struct Search<'a> {
    pub query: &'a str,
    pub needed: Needed,
    /// Whether tokens that begin with a token of the query count, too.
    pub expand: bool,
    /// The fields that are searched; none is all.
    pub fields: Vec<&'a str>,
    /// The boosts of fields.
    pub boosts: Vec<(&'a str, u8)>,
    /// How many hits come at most; 0 is no limit.
    pub limit: u32,
}

/// Which words of a query a document must have.
#[derive(Clone, Copy)]
pub enum Needed {
    One,
    /// Each of them in one field.
    EachInOneField,
    /// Each of them, one in this field and another one in that.
    Each,
}
