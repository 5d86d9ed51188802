//! The words of a language.

use crate::letters::Letters;
use crate::random::Random;
use std::alloc::{AllocError, Global};

/// How many words there are, 2^14.
const COUNT: usize = 16_384;

/// Words, the more frequent ones first.
#[derive(Drop)]
pub struct Vocabulary {
    words: Vec<String>,
}

impl Vocabulary {
    /// The frequent words of a language, and after them words that are made of its parts, the rarer
    /// the longer.
    pub fn new(alloc: Global, random: &mut Random, letters: Letters) -> Result<Self, AllocError> {
        let mut words = Vec::with_capacity(alloc, COUNT)?;
        for word in letters.frequent.split(' ') {
            words.push(String::from_str(alloc, word)?)?;
        }
        let onsets: Vec<&str> = letters.onsets.split(' ').collect(alloc)?;
        let vowels: Vec<&str> = letters.vowels.split(' ').collect(alloc)?;
        let endings: Vec<&str> = letters.endings.split(' ').collect(alloc)?;
        for rank in words.len()..COUNT {
            let mut word = String::new(alloc);
            for _ in 0..syllables(random, rank) {
                word.push_str(pick(random, &onsets))?;
                word.push_str(pick(random, &vowels))?;
            }
            let ending = pick(random, &endings);
            if ending != "-" {
                word.push_str(ending)?;
            }
            words.push(word)?;
        }
        Ok(Vocabulary { words })
    }

    /// A random word, as often as its rank says.
    pub fn word(&self, random: &mut Random) -> &str {
        self.at(random.rank())
    }

    /// The word of a rank.
    pub fn at(&self, rank: usize) -> &str {
        match self.words.get(rank) {
            Some(word) => word.as_str(),
            None => "",
        }
    }
}

/// How many syllables a word of this rank has.
fn syllables(random: &mut Random, rank: usize) -> usize {
    if rank < 512 {
        random.from(1, 2)
    } else {
        random.from(2, 3)
    }
}

fn pick<'a>(random: &mut Random, parts: &[&'a str]) -> &'a str {
    match parts.get(random.below(parts.len())) {
        Some(part) => *part,
        None => "",
    }
}
