// A quotient from 1/5 to 1, whose fifth root is taken.
ghost use Rattle.std.specs.Prelude.{◌*◌, ◌<◌, ◌≤◌};

use crate::quotient::Quotient;

// The numerator is below 2^13, so that 115 binary digits of the quotient have room.
#[derive(Clone, Copy)]
pub struct UpToOne {
    pub quotient: Quotient,
    ghost most: { quotient.num ≤ quotient.den },
    ghost least: { quotient.den ≤ 5 * quotient.num },
    ghost short: { quotient.num < 8192 },
}
