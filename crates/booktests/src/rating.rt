// What the tests' edition tells.
ghost use Rattle.std.specs.Prelude.{◌≡◌};
ghost use Rattle.booktests.specs.Rated.{rated_meaning};
ghost use Rattle.powers.proofs.Laws.{le_trans};

use crate::rated::Rated;
use editions::edition::Edition;
use editions::strength::Strength;
use records::kind::Kind;
use records::ratios::Ratios;
use records::record::BraceRecord;

impl Edition for Rated {
    ghost meaning = { λ e. rated_meaning e.width e.floor };

    ghost lawful = { λ e.
        record {
          between = λ b q k f g below above. le_trans below above;
          down = λ b q k f g less below. le_trans less below;
          up = λ b q k f g more above. le_trans above more;
        } };

    fn width(&self) -> u64 {
        self.width
    }

    fn floor(&self) -> u64 {
        self.floor
    }

    fn tell(&self, _brace: &BraceRecord, _ratios: Ratios, _kind: Kind) -> Option<Strength> {
        Some(Strength {
            low: 100_000,
            high: 100_000,
        })
    }
}
