// The owner's rule as an edition.
ghost use Rattle.std.specs.Prelude.{◌≡◌, ◌<◌, ◌⊎◌, MatchOption};
ghost use Rattle.houserule.specs.House.{house_meaning};
ghost use Rattle.powers.proofs.Laws.{le_trans};

use crate::rule::HouseRule;
use editions::edition::Edition;
use editions::strength::Strength;
use records::kind::Kind;
use records::ratios::Ratios;
use records::record::BraceRecord;

impl HouseRule {
    // A strength from a tenth to 2,000.
    pub fn new(strength: u64) -> Option<HouseRule>
        ensures { MatchOption result ((strength < 100000) ⊎ (2000000000 < strength)) (λ h. h.strength ≡ strength) }
    {
        if strength < 100_000 || strength > 2_000_000_000 {
            return None;
        }
        Some(HouseRule { strength })
    }
}

impl Edition for HouseRule {
    ghost meaning = { λ e. house_meaning e.strength };

    ghost lawful = { λ e.
        record {
          between = λ b q k f g below above. le_trans below above;
          down = λ b q k f g less below. le_trans less below;
          up = λ b q k f g more above. le_trans above more;
        } };

    fn width(&self) -> u64 {
        0
    }

    fn floor(&self) -> u64 {
        100_000
    }

    // The chord is spent where more than half of its capacity is taken in compression.
    fn tell(&self, _brace: &BraceRecord, ratios: Ratios, _kind: Kind) -> Option<Strength> {
        if ratios.p < -5000 {
            return None;
        }
        Some(Strength {
            low: self.strength,
            high: self.strength,
        })
    }
}
