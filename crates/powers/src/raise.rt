// A base from 1 to 64 to the power of an exponent below 1.
ghost use Rattle.powers.specs.Enclosures.{Raised};

use crate::ends::Ends;
use crate::ops::exact;
use crate::quotient::Quotient;
use crate::walk::step;
use crate::walked::Walked;

// The exponent is taken by its first 32 binary digits, and what they leave out widens the ends.
// Where the base or the exponent is outside its range, the ends are open.
pub fn power_below(base: Quotient, exponent: Quotient) -> Ends
    ensures { Raised base exponent result }
{
    if base.num < base.den
        || base.num as u128 > 64 * base.den as u128
        || exponent.num >= exponent.den
    {
        return Ends::OPEN;
    }
    let start = exact(base);
    let mut at = Walked {
        root: start,
        product: Ends::ONE,
    };
    let mut rest = exponent.num as u128;
    // After j turns the digits so far are taken; the proof counts by j.
    for j in 0..32u32 {
        let digit = 2 * rest >= exponent.den as u128;
        at = step(at, digit);
        rest = if digit {
            2 * rest - exponent.den as u128
        } else {
            2 * rest
        };
    }
    let above = at.product * at.root;
    Ends {
        low: at.product.low,
        high: above.high,
    }
}
