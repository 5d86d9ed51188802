//! How many documents pieces have.

ghost use Rattle.std.specs.Prelude.{◌≡◌, ◌≢◌, ◌<◌, ◌≤◌, ◌^◌, ◌++◌, All, IfNone, IfOk, IfSome};
ghost use Rattle.std.specs.Prelude.{IsSome, OnOk, replicate, sum};
ghost use Rattle.elasticlunr_piece_head.specs.Holders.{holders_from};

use std::alloc::{AllocError, Global};

/// The sum of numbers, where it can be counted and none of them is 0.
pub(crate) fn total_of(counts: &[usize]) -> Option<usize>
    ensures sum { IfSome result (λ total. total ≡ sum counts.now) }
    ensures some { IfSome result (λ _. All (λ count. count ≢ 0) counts.now) }
    ensures counted { All (λ count. count ≢ 0) counts.now → sum counts.now < 2 ^ 64
        → IsSome result }
{
    let mut total: usize = 0;
    for count in counts {
        if *count == 0 {
            return None;
        }
        total = total.checked_add(*count)?;
    }
    Some(total)
}

/// The sum of numbers, where it can be counted.
pub(crate) fn sum_of(counts: &[usize]) -> Option<usize>
    ensures some { IfSome result (λ total. total ≡ sum counts.now) }
    ensures none { IfNone result (2 ^ 64 ≤ sum counts.now) }
{
    let mut total: usize = 0;
    for count in counts {
        total = total.checked_add(*count)?;
    }
    Some(total)
}

/// For each document in order the number of the piece that has it, if the pieces have so many.
pub(crate) fn holders_of(alloc: Global, counts: &[usize]) -> Result<Vec<usize>, AllocError>
    ensures { IfOk result (λ holders. holders.items ≡ holders_from 0 counts.now) }
{
    let mut holders = Vec::new(alloc);
    for (number, count) in counts.iter().enumerate() {
        push_times(&mut holders, number, *count)?;
    }
    Ok(holders)
}

/// Puts a number so many times behind others.
fn push_times(numbers: &mut Vec<usize>, number: usize, times: usize) -> Result<(), AllocError>
    ensures { OnOk result (numbers.new.items ≡ numbers.old.items ++ replicate times number) }
{
    for _ in 0..times {
        numbers.push(number)?;
    }
    Ok(())
}
