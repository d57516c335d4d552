// Operations on ends: the lower end is cut and the upper end raised, so that a lost digit widens the ends and never leaves the
// formula out. An end that does not fit becomes the largest number.
ghost use Rattle.std.specs.Prelude.{◌≡◌};
ghost use Rattle.powers.specs.Enclosures.{held, Exact, Product, Sum, Difference, Greater};

use crate::ends::{Ends, UNIT};
use crate::quotient::Quotient;
use std::ops::{Add, Mul, Sub};

fn fitted(x: u128) -> u64
    ensures { result ≡ held x }
{
    u64::try_from(x).unwrap_or(u64::MAX)
}

// The ends of an exact quotient. Not `From`: that is for what keeps its value, and here a digit may be lost at each end.
pub fn exact(r: Quotient) -> Ends
    ensures { Exact r result }
{
    let scaled = r.num as u128 * UNIT as u128;
    let low = fitted(scaled / r.den as u128);
    let high = fitted(scaled.div_ceil(r.den as u128));
    Ends { low, high }
}

impl Mul for Ends {
    type Output = Ends;

    ghost mul_gives = { Product };

    fn mul(self, other: Ends) -> Ends {
        let low = fitted(self.low as u128 * other.low as u128 / UNIT as u128);
        let high = fitted((self.high as u128 * other.high as u128).div_ceil(UNIT as u128));
        Ends { low, high }
    }
}

impl Add for Ends {
    type Output = Ends;

    ghost add_gives = { Sum };

    fn add(self, other: Ends) -> Ends {
        let low = fitted(self.low as u128 + other.low as u128);
        let high = fitted(self.high as u128 + other.high as u128);
        Ends { low, high }
    }
}

// The difference, each end 0 where it would be less.
impl Sub for Ends {
    type Output = Ends;

    ghost sub_gives = { Difference };

    fn sub(self, other: Ends) -> Ends {
        Ends {
            low: self.low.saturating_sub(other.high),
            high: self.high.saturating_sub(other.low),
        }
    }
}

pub fn greater_of(x: Ends, y: Ends) -> Ends
    ensures { Greater x y result }
{
    Ends {
        low: x.low.max(y.low),
        high: x.high.max(y.high),
    }
}
