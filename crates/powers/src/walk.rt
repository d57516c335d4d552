// One binary digit of an exponent at a time.
ghost use Rattle.powers.specs.Digits.{Halved, Stepped};

use crate::ends::{Ends, UNIT};
use crate::roots::{floor_root, guessed_root};
use crate::walked::Walked;
use std::num::nearest_u64_to_f64;

// About the square root of x units: near 1 by the first terms of its series, in 256ths of a unit. No proof rests on it.
fn guess(x: u64) -> u64 {
    let above = x.wrapping_sub(UNIT);
    if above < 4294967296 {
        let second = above.wrapping_mul(above) >> 35;
        let third = second.wrapping_mul(above) >> 41;
        let fourth = second.wrapping_mul(second).wrapping_mul(5) >> 49;
        let sum = above
            .wrapping_mul(128)
            .wrapping_sub(second)
            .wrapping_add(third)
            .wrapping_sub(fourth);
        return (UNIT - 1).wrapping_add(sum.wrapping_add(255) >> 8);
    }
    guessed_root(nearest_u64_to_f64(x) / UNIT as f64)
}

// The square root of ends that are at least 1 and at most two units apart.
fn halve(x: Ends) -> Ends
    ensures { Halved x result }
{
    let low = floor_root(x.low as u128 * UNIT as u128, guess(x.low));
    Ends { low, high: low + 2 }
}

// One more digit.
pub fn step(s: Walked, digit: bool) -> Walked
    ensures { Stepped s digit result }
{
    let root = halve(s.root);
    if digit {
        let product = s.product * root;
        return Walked { root, product };
    }
    Walked {
        root,
        product: s.product,
    }
}
