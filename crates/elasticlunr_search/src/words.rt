//! Which of a query's tokens a document must have.

/// Whether a document must have one of the query's tokens, or each.
#[derive(Clone, Copy)]
pub enum Join {
    Any,
    All,
}
