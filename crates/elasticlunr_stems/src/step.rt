//! The steps of a stemmer.
use crate::class::Class;
use crate::suffixes::Suffixes;

/// What a step does. Other steps are named by their numbers.
#[derive(Drop)]
pub enum Kind {
    /// Puts a text at the end.
    Add(Vec<char>),
    /// Applies if the text reaches a region.
    Within(usize),
    /// Takes the last character off, if it is in the class.
    One(Class),
    /// Takes the last character off, if it is in the class and stands twice.
    Twin(Class),
    /// Takes all characters of the class off the end.
    Run(Class),
    /// Takes the longest suffix off, up to a region, and then the step of its row.
    Cut(usize, Suffixes),
    /// One step after the other.
    Both(usize, usize),
    /// The first step that applies.
    Either(usize, usize),
    /// Applies if the step does not, and changes nothing.
    Fails(usize),
    /// The first step takes an end off, the second one works on the rest, and the end is put back.
    Keep(usize, usize),
    /// Types a text with a character of the class anew, with the step after each character.
    Sweep(Class, usize),
}

/// A step, and what the table declares of it.
#[derive(Drop)]
pub struct Step {
    /// It changes no character, only the length.
    pub only_shortens: bool,
    /// It applies to each text.
    pub always_applies: bool,
    pub kind: Kind,
}

/// Where a region begins: behind what the step takes off the reversed text, and after that many
/// characters at least.
#[derive(Clone, Copy)]
pub struct Mark {
    pub step: usize,
    pub least: usize,
}
