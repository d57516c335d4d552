// A pile from the three numbers of a card.
ghost use Rattle.std.specs.Prelude.{◌≡◌, true, pos, IfOk, MatchResult};
ghost use Rattle.records.specs.Limits.{RefusedBy};
ghost use Rattle.layers.specs.declared.pile_fault.PileFault.TheVariants.{Edition};
ghost use Rattle.layers.specs.Piles.{BareNamed, PileNamed, fault_of_pile, outside};

use crate::bare::Bare;
use crate::can::Can;
use crate::dividing::fair_divisor;
use crate::divisor::Divisor;
use crate::pile::Pile;
use crate::pile_fault::PileFault;
use editions::api::Api;
use editions::iso::Iso2007;

impl TryFrom<i64> for Bare {
    type Error = PileFault;

    ghost try_from_gives = { λ n r. MatchResult r (λ b. BareNamed b n) (λ e. (e ≡ Edition) × (outside (pos 1) n (pos 2) ≡ true)) };

    // The edition of this number.
    fn try_from(edition: i64) -> Result<Bare, PileFault> {
        match edition {
            1 => Ok(Bare::Iso(Iso2007 {})),
            2 => Ok(Bare::Api(Api {})),
            _ => Err(PileFault::Edition),
        }
    }
}

impl Pile {
    // The pile that the numbers name, or the first number that names none. A divisor of 100 builds no layer. Three numbers and no
    // struct: they are a card's, whose struct stands above this crate, and a program that has no cards names them one by one.
    pub fn of(edition: i64, c: i64, can: i64) -> Result<Pile, PileFault>
        ensures fault { RefusedBy (fault_of_pile edition c can) result }
        ensures is { IfOk result (λ p. PileNamed p edition c can) }
    {
        let below = Bare::try_from(edition)?;
        let c = fair_divisor(c)?;
        match (c, can) {
            (100, 0) => Ok(Pile::Plain(below)),
            (100, 1) => Ok(Pile::Canned(Can { below })),
            (c, 0) => Ok(Pile::Divided(Divisor { below, c })),
            (c, 1) => Ok(Pile::CannedDivided(Divisor {
                below: Can { below },
                c,
            })),
            _ => Err(PileFault::Can),
        }
    }
}
