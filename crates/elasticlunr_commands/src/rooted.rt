//! The frequency of a token that stands n times in a field.
ghost use Rattle.elasticlunr_commands.specs.Root.{IsRoot};

/// The square root of a count in millionths, rounded down: the greatest `r` with
/// `r * r <= n * 10^12`.
///
/// The counts up to 4, which are most, are looked up; those whose product has 64 bits take half the
/// steps of the others. The original crate keeps the `f64` square root in its place; a whole number
/// prints alike everywhere.
pub fn root(n: u64) -> u64
    ensures { IsRoot n result }
{
    match n {
        1 => 1_000_000,
        2 => 1_414_213,
        3 => 1_732_050,
        4 => 2_000_000,
        5..=18_000_000 => (n * 1_000_000_000_000).isqrt(),
        _ => (u128::from(n) * 1_000_000_000_000).isqrt() as u64,
    }
}
