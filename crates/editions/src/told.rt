// From ends in units to a strength in millionths.
ghost use Rattle.std.specs.Prelude.{◌≡◌};
ghost use Rattle.editions.specs.Meanings.{Millionths};

use crate::strength::Strength;
use powers::ends::{Ends, UNIT};

// The lower end is rounded down and the upper one up; so it is no `From`, which is for what keeps its value.
pub fn millionths(z: Ends) -> Strength
    ensures { Millionths z result }
{
    let low = z.low as u128 * 1000000 / UNIT as u128;
    let high = (z.high as u128 * 1000000).div_ceil(UNIT as u128);
    Strength {
        low: low as u64,
        high: high as u64,
    }
}
