//! Random numbers, the same for the same seed.

use rand_core::utils::NextWord;
use rand_pcg::Pcg32;

/// A source of numbers.
#[derive(Drop)]
pub struct Random {
    generator: Pcg32,
}

impl Random {
    /// A source for a seed and the number of a job, so that no two jobs draw the same.
    pub fn new(seed: u32, job: u64) -> Random {
        Random {
            generator: Pcg32::new(seed as u64, job),
        }
    }

    /// A number below 2^32.
    pub fn word(&mut self) -> u32 {
        self.generator.next_word()
    }

    /// A number below a bound, 0 where that is 0.
    pub fn below(&mut self, bound: usize) -> usize {
        (self.word() as usize).checked_rem(bound).unwrap_or(0)
    }

    /// One of so many numbers, from the first one on.
    pub fn from(&mut self, first: usize, count: usize) -> usize {
        first.saturating_add(self.below(count))
    }

    /// The rank of a word below 2^14, by the law of texts: a rank is drawn about as often as its
    /// inverse says.
    pub fn rank(&mut self) -> usize {
        let word = self.word();
        let halvings = word % 14;
        ((word >> 8) % 16_384 >> halvings) as usize
    }
}
