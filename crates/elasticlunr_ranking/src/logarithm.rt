//! The natural logarithm, as fdlibm rounds it. JavaScript engines take theirs from there, so a
//! score has the same bits in a browser.
ghost use Rattle.std.specs.Prelude.{◌≡◌};
ghost use Rattle.elasticlunr_ranking.specs.Logarithm.{logarithm_of, logarithm_far, logarithm_mid};
ghost use Rattle.elasticlunr_ranking.specs.Logarithm.{logarithm_near, logarithm_at, series_of};

use std::num::nearest_u64_to_f64;

// How many fractions a power of two has.
pub(crate) const FRACTIONS: u64 = 0x10_0000_0000_0000;

// How many fractions share their upper 20 bits.
pub(crate) const SHARE: u64 = 0x1_0000_0000;

// The bits of 1.0, and those of 0.5.
pub(crate) const ONE_BITS: u64 = 0x3ff0_0000_0000_0000;

pub(crate) const HALF_BITS: u64 = 0x3fe0_0000_0000_0000;

// The exponent that the bits of 1.0 have, and the one below it.
pub(crate) const BIAS: f64 = 1023.0;

pub(crate) const LOWER_BIAS: f64 = 1022.0;

// The upper 20 bits of the least fraction that is halved, of those near 1, and of those where half
// the square counts.
pub(crate) const HALVED: u64 = 0x6a09c;

pub(crate) const BELOW_ONE: u64 = 0xffffe;

pub(crate) const MID_FIRST: u64 = 0x6147a;

pub(crate) const MID_LAST: u64 = 0x6b851;

pub(crate) const ZERO: f64 = 0.0;

pub(crate) const ONE: f64 = 1.0;

pub(crate) const TWO: f64 = 2.0;

pub(crate) const HALF: f64 = 0.5;

pub(crate) const THIRD: f64 = 0.33333333333333333;

pub(crate) const MINUS_INFINITY: f64 = -1.0 / 0.0;

// The logarithm of 2 is the sum of these.
pub(crate) const LN_2_HIGH: f64 = 6.93147180369123816490e-01;

pub(crate) const LN_2_LOW: f64 = 1.90821492927058770002e-10;

// The coefficients of the series.
pub(crate) const L_1: f64 = 6.666666666666735130e-01;

pub(crate) const L_2: f64 = 3.999999999940941908e-01;

pub(crate) const L_3: f64 = 2.857142874366239149e-01;

pub(crate) const L_4: f64 = 2.222219843214978396e-01;

pub(crate) const L_5: f64 = 1.818357216161805012e-01;

pub(crate) const L_6: f64 = 1.531383769920937332e-01;

pub(crate) const L_7: f64 = 1.479819860511658591e-01;

/// The natural logarithm of 0 or of a number from `f64::MIN_POSITIVE` to `f64::MAX`.
pub(crate) fn logarithm(x: f64) -> f64
    ensures { result ≡ logarithm_of x }
{
    if x.is_nan() {
        return x;
    }
    if x == ZERO {
        return MINUS_INFINITY;
    }
    let bits = x.to_bits();
    let fraction = bits % FRACTIONS;
    let power = nearest_u64_to_f64(bits / FRACTIONS);
    let high = fraction / SHARE;
    if high < HALVED {
        at(
            power - BIAS,
            f64::from_bits(fraction + ONE_BITS) - ONE,
            high,
        )
    } else {
        at(
            power - LOWER_BIAS,
            f64::from_bits(fraction + HALF_BITS) - ONE,
            high,
        )
    }
}

// The logarithm of 2 ^ k times 1 + f, whose fraction has these upper bits.
fn at(k: f64, f: f64, high: u64) -> f64
    ensures { result ≡ logarithm_at k f high }
{
    if high == 0 || high >= BELOW_ONE {
        near(k, f)
    } else if high >= MID_FIRST && high <= MID_LAST {
        mid(k, f)
    } else {
        far(k, f)
    }
}

fn near(k: f64, f: f64) -> f64
    ensures { result ≡ logarithm_near k f }
{
    let rest = f * f * (HALF - THIRD * f);
    k * LN_2_HIGH - (rest - k * LN_2_LOW - f)
}

fn mid(k: f64, f: f64) -> f64
    ensures { result ≡ logarithm_mid k f }
{
    let s = f / (TWO + f);
    let half = HALF * f * f;
    k * LN_2_HIGH - (half - (s * (half + series(s)) + k * LN_2_LOW) - f)
}

fn far(k: f64, f: f64) -> f64
    ensures { result ≡ logarithm_far k f }
{
    let s = f / (TWO + f);
    k * LN_2_HIGH - (s * (f - series(s)) - k * LN_2_LOW - f)
}

fn series(s: f64) -> f64
    ensures { result ≡ series_of s }
{
    let z = s * s;
    let w = z * z;
    let even = w * (L_2 + w * (L_4 + w * L_6));
    let odd = z * (L_1 + w * (L_3 + w * (L_5 + w * L_7)));
    odd + even
}
