// A quotient that is at most 1, and what it makes of a told strength.
ghost use Rattle.std.specs.Prelude.{◌+◌, ◌*◌, ◌<◌, ◌≤◌};
ghost use Rattle.powers.specs.Fractions.{Fraction, number, ◌at_most◌};
ghost use Rattle.powers.specs.Enclosures.{Is};
ghost use Rattle.layers.specs.Layers.{Scaled};

use editions::strength::Strength;
use powers::quotient::Quotient;

#[derive(Clone, Copy)]
pub struct Portion {
    pub quotient: Quotient,
    ghost most: { quotient.num ≤ quotient.den },
}

impl Portion {
    pub const ONE: Portion = Portion {
        quotient: Quotient { num: 1, den: 1 },
    };

    // A quotient, or 1 where it is above 1.
    pub fn at_most_one(quotient: Quotient) -> Portion
        ensures is { (f : Fraction) → Is f quotient → Is (f at_most number 1 1) result.quotient }
        ensures small { result.quotient.den ≤ quotient.den }
    {
        if quotient.num > quotient.den {
            return Portion::ONE;
        }
        Portion { quotient }
    }

    fn down(self, x: u64) -> u64
        ensures under { result * self.quotient.den ≤ x * self.quotient.num }
        ensures near { x * self.quotient.num < result * self.quotient.den + self.quotient.den }
    {
        let z = self.quotient;
        (x as u128 * z.num as u128 / z.den as u128) as u64
    }

    fn up(self, x: u64) -> u64
        ensures over { x * self.quotient.num ≤ result * self.quotient.den }
        ensures close { result * self.quotient.den < x * self.quotient.num + self.quotient.den }
    {
        let z = self.quotient;
        (x as u128 * z.num as u128).div_ceil(z.den as u128) as u64
    }

    // This portion of a strength: the lower end is rounded down and the upper one up.
    pub fn of(self, strength: Strength) -> Strength
        ensures { Scaled self.quotient strength result }
    {
        Strength {
            low: self.down(strength.low),
            high: self.up(strength.high),
        }
    }
}
