// Square roots of quotients, and the powers of a quotient from 1/5 to 1 whose exponents are fifths.
ghost use Rattle.std.specs.Prelude.{◌≡◌, MatchOption, ℕ, ◌+◌, ◌*◌, ◌^◌, ◌<◌, ◌≤◌, T};
ghost use Rattle.powers.specs.Fractions.{Fraction, number};
ghost use Rattle.powers.specs.Formulas.{power};
ghost use Rattle.powers.specs.Enclosures.{Near, Is, SquareRoot, UpToOne as IsUpToOne, Fifths};

use crate::ends::{Ends, UNIT};
use crate::ops::exact;
use crate::quotient::Quotient;
use crate::up_to_one::UpToOne;
use std::num::{
    f64_from_bits_with_nan, f64_to_bits_with_nan, nearest_u64_to_f64, saturating_f64_to_u64,
};

// The numerators whose square roots are taken are below this.
const SHORT: u64 = 1 << 46;

// A square root is taken of what is counted in squares of a unit.
const SQUARES: u128 = 1 << 80;

// A fifth root is taken in steps of 2^-23, of what is counted in fifth powers of a step.
const FIFTH_POWERS: u128 = 1 << 115;

// How many units a step has.
const STEP: u64 = 1 << 17;

// Whether r is the root of n, rounded down.
fn is_root(r: u64, n: u128) -> bool
    ensures { T result → (r * r ≤ n) × (n < (r + 1) * (r + 1)) }
{
    let square = r as u128 * r as u128;
    square <= n && n - square <= 2 * (r as u128)
}

// The root of n, rounded down. The guess only saves time: it is taken, or a neighbour of it, where that is the root.
pub(crate) fn floor_root(n: u128, guess: u64) -> u64
    ensures at { result * result ≤ n }
    ensures next { n < (result + 1) * (result + 1) }
{
    for r in [guess, guess.saturating_sub(1), guess.saturating_add(1)] {
        if is_root(r, n) {
            return r;
        }
    }
    n.isqrt() as u64
}

// About the square root of q, in units. Newton's method finds 1 / √q without a division, from the float whose exponent is half of
// q's, negated. No proof rests on it.
pub(crate) fn guessed_root(q: f64) -> u64 {
    let half = 0.5 * q;
    let mut inverse = f64_from_bits_with_nan(0x5fe6eb50c7b537a9u64.wrapping_sub(
        f64_to_bits_with_nan(q) >> 1,
    ));
    for _ in 0..4 {
        inverse = inverse * (1.5 - half * inverse * inverse);
    }
    saturating_f64_to_u64(q * inverse * UNIT as f64)
}

// The square root of a quotient whose numerator is below 2^46; else the ends are open.
pub fn square_root(r: Quotient) -> Ends
    ensures { SquareRoot r result }
{
    if r.num >= SHORT {
        return Ends::OPEN;
    }
    let guess = guessed_root(nearest_u64_to_f64(r.num) / nearest_u64_to_f64(r.den));
    let low = floor_root(r.num as u128 * SQUARES / r.den as u128, guess);
    Ends { low, high: low + 1 }
}

// The largest number whose n-th power is at most `limit`, which has at most n times `bits` bits.
// A bisection, and so a `while`: which of the two ends moves is known only from the power of the middle.
fn floor_nth_root(limit: u128, n: u32, bits: u32) -> u128
    requires some { 0 < n }
    requires narrow { bits < 128 }
    requires fits { bits * n ≤ 128 }
    requires below { limit < 2 ^ (bits * n) }
    ensures at { result ^ n ≤ limit }
    ensures next { limit < (result + 1) ^ n }
    ensures bound { result < 2 ^ bits }
{
    let mut low: u128 = 0;
    let mut high: u128 = 1 << bits;
    while low + 1 < high {
        let middle = (low + high) / 2;
        if middle.pow(n) <= limit {
            low = middle;
        } else {
            high = middle;
        }
    }
    low
}

impl UpToOne {
    fn of(r: Quotient) -> Option<UpToOne>
        ensures { MatchOption result (IsUpToOne r → ⊥) (λ x. x.quotient ≡ r) }
    {
        if r.num < 8192 && r.num <= r.den && r.den <= 5 * r.num {
            Some(UpToOne { quotient: r })
        } else {
            None
        }
    }

    // The fifth root, to 2^-23.
    fn fifth_root(self) -> Ends
        ensures { (q : Fraction) → Is q self.quotient → Near result (power q (number 1 5)) 796046287437 1099511758848 181039 }
    {
        let x = floor_nth_root(
            self.quotient.num as u128 * FIFTH_POWERS / self.quotient.den as u128,
            5,
            25,
        ) as u64;
        Ends {
            low: x * STEP,
            high: (x + 1) * STEP,
        }
    }
}

// Three functions, and not one by the exponent: each multiplies other powers of the base, and has its own floor and width.

// r to the 6/5, for r from 1/5 to 1; else the ends are open.
pub fn six_fifths(r: Quotient) -> Ends
    ensures { Fifths 6 158329674399 200000 r result }
{
    let Some(base) = UpToOne::of(r) else {
        return Ends::OPEN;
    };
    exact(r) * base.fifth_root()
}

// r to the 8/5, for r from 1/5 to 1; else the ends are open.
pub fn eight_fifths(r: Quotient) -> Ends
    ensures { Fifths 8 82463372083 600000 r result }
{
    let Some(base) = UpToOne::of(r) else {
        return Ends::OPEN;
    };
    let x = base.fifth_root();
    exact(r) * (x * x * x)
}

// r to the 13/5, for r from 1/5 to 1; else the ends are open.
pub fn thirteen_fifths(r: Quotient) -> Ends
    ensures { Fifths 13 16492674416 600000 r result }
{
    let Some(base) = UpToOne::of(r) else {
        return Ends::OPEN;
    };
    let b = exact(r);
    let x = base.fifth_root();
    b * b * (x * x * x)
}
