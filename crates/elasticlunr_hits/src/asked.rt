//! What is asked for.

/// Which words of the query a document must have.
#[derive(Clone, Copy)]
pub enum Needed {
    /// One of them, in some field.
    One,
    /// Each of them in one field.
    EachInOneField,
    /// Each of them, one in this field and another one in that.
    Each,
}

/// What is searched for, and how many hits come at most.
#[derive(Drop)]
pub struct Asked<'a> {
    /// The words that are searched for.
    pub query: &'a str,
    /// Which of them a document must have.
    pub needed: Needed,
    /// Whether tokens that go on count, too.
    pub expand: bool,
    /// The fields that are searched; none is all.
    pub fields: Vec<&'a str>,
    /// The boosts of fields. The last one of a field counts; one that isn't here has 1.
    pub boosts: Vec<(&'a str, u8)>,
    /// How many hits come at most; none is all.
    pub limit: Option<usize>,
}
