// A divisor of every strength: a layer over any edition.
ghost use Rattle.std.specs.Prelude.{◌≡◌, ◌≤◌, true, pos, MatchResult};
ghost use Rattle.layers.specs.Layers.{divided, hundredths};
ghost use Rattle.layers.specs.declared.pile_fault.PileFault.TheVariants.{Divisor as DivisorFault};
ghost use Rattle.layers.specs.Piles.{DivisorOver, NoDivisorOver, outside};
ghost use Rattle.layers.specs.Layering.{scaled_lawful};

use crate::divisor::Divisor;
use crate::pile_fault::PileFault;
use crate::portion::Portion;
use crate::width::widened;
use editions::edition::Edition;
use editions::strength::Strength;
use powers::quotient::Quotient;
use records::kind::Kind;
use records::ratios::Ratios;
use records::record::BraceRecord;

// Why there is no divisor, and the edition that was to stand below it.
#[derive(Drop)]
pub struct NoDivisor<E> {
    pub below: E,
    pub fault: PileFault,
}

// A divisor in hundredths, if it is from 100 to 200.
pub(crate) fn fair_divisor(c: i64) -> Result<u64, PileFault>
    ensures { MatchResult result (λ h. (pos h ≡ c) × (100 ≤ h) × (h ≤ 200)) (λ e. (e ≡ DivisorFault) × (outside (pos 100) c (pos 200) ≡ true)) }
{
    if c < 100 || c > 200 {
        return Err(PileFault::Divisor);
    }
    Ok(c as u64)
}

impl<E> Divisor<E> {
    // A divisor from 100 to 200 over an edition; any other is refused, and the edition comes back.
    pub fn new(below: E, c: i64) -> Result<Divisor<E>, NoDivisor<E>>
        ensures { MatchResult result (λ d. DivisorOver d below c) (λ n. NoDivisorOver n below c) }
    {
        // Not by map and map_err: each of the two would take the edition.
        match fair_divisor(c) {
            Ok(c) => Ok(Divisor { below, c }),
            Err(fault) => Err(NoDivisor { below, fault }),
        }
    }
}

impl<E: Edition> Edition for Divisor<E> {
    ghost meaning = { λ e. divided e.c e.fair.0 (E.Edition.meaning e.below) };

    ghost lawful = { λ e. scaled_lawful (λ _ _. hundredths e.c e.fair.0) 2 (E.Edition.meaning e.below) (E.Edition.lawful e.below) };

    fn width(&self) -> u64 {
        widened(self.below.width())
    }

    fn floor(&self) -> u64 {
        self.below.floor() / 2
    }

    fn tell(&self, brace: &BraceRecord, ratios: Ratios, kind: Kind) -> Option<Strength> {
        let told = self.below.tell(brace, ratios, kind)?;
        let portion = Portion {
            quotient: Quotient {
                num: 100,
                den: self.c,
            },
        };
        Some(portion.of(told))
    }
}
