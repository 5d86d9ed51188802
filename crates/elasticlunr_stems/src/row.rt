//! The rows of a cut.

/// A suffix, and the number of the step that what stands before it takes.
#[derive(Drop)]
pub struct Row {
    pub suffix: Vec<char>,
    pub step: usize,
}
