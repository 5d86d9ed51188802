//! Ranges of characters, looked up one by one for ASCII and by binary search otherwise.
ghost use Rattle.std.specs.Prelude.{◌≡◌, ◌+◌, ◌<◌, ◌≤◌, All, AllPairs, ℕ, IfOk};
ghost use Rattle.ucd_table.specs.Rows.{in_ranges, AreRanges};
ghost use Rattle.elasticlunr_text.specs.Ranges.{AreApart};

use std::alloc::{AllocError, Global};

/// Ranges of characters, in order, with a gap between any two. An ASCII character is looked up from
/// the first range on, and any other one by binary search.
#[derive(Drop)]
pub struct Ranges {
    ranges: Vec<(u32, u32)>,
    ghost apart: { AreApart ranges.items },
}

impl Ranges {
    /// Sorts the ranges, and joins those that touch.
    pub fn new(alloc: Global, ranges: Vec<(u32, u32)>) -> Result<Self, AllocError>
        requires { AreRanges ranges.items }
        ensures { IfOk result (λ joined. (c : ℕ) → in_ranges joined.ranges.items c
            ≡ in_ranges ranges.items c) }
    {
        let mut ranges = ranges;
        ranges.sort_unstable_by_key(|range| range.0);
        let sorted = ranges.as_slice();
        let Some((first, others)) = sorted.split_first() else {
            return Ok(Ranges {
                ranges: Vec::new(alloc),
            });
        };
        let mut joined = Vec::new(alloc);
        let mut last = *first;
        for range in others {
            if range.0 <= last.1 + 1 {
                last.1 = last.1.max(range.1);
            } else {
                joined.push(last)?;
                last = *range;
            }
        }
        joined.push(last)?;
        Ok(Ranges { ranges: joined })
    }

    /// Looks the character up: by binary search, but for ASCII, whose few ranges come first.
    pub fn contains(&self, c: char) -> bool
        ensures { result ≡ in_ranges self.now.ranges.items c }
    {
        let code = c as u32;
        if c.is_ascii() {
            return self.contains_early(code);
        }
        let ranges = self.ranges.as_slice();
        let at = ranges.partition_point(|range| range.1 < code);
        match ranges.get(at) {
            Some(range) => range.0 <= code,
            None => false,
        }
    }

    /// Looks the code point up from the first range on.
    fn contains_early(&self, code: u32) -> bool
        ensures { result ≡ in_ranges self.now.ranges.items code }
    {
        for range in self.ranges.as_slice() {
            if code <= range.1 {
                return range.0 <= code;
            }
        }
        false
    }

    /// The same ranges.
    pub fn clone(&self) -> Result<Self, AllocError>
        ensures { IfOk result (λ copy. copy.ranges.items ≡ self.now.ranges.items) }
    {
        Ok(Ranges {
            ranges: self.ranges.clone()?,
        })
    }
}
