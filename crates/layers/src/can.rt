// Short cans: a layer over any edition.
ghost use Rattle.std.specs.Prelude.{◌≡◌, ◌*◌, ◌≤◌, min};
ghost use Rattle.powers.specs.Enclosures.{Is};
ghost use Rattle.layers.specs.Layers.{can_ratio, can_factor, can_multiplier, canned};
ghost use Rattle.layers.specs.Layering.{scaled_lawful};

use crate::portion::Portion;
use crate::width::widened;
use editions::edition::Edition;
use editions::rows::beta_above_nine_tenths;
use editions::strength::Strength;
use powers::quotient::Quotient;
use records::kind::Kind;
use records::ratios::Ratios;
use records::record::BraceRecord;

// An edition with the axial strengths of Y and X lessened where the can is short. No trait for both layers: an impl of `Edition`
// for each type of it could not stand beside that for each code, and what they share are the width and the portion.
#[derive(Drop)]
pub struct Can<E> {
    pub below: E,
}

// r, where it is not above 1
fn ratio(r: &BraceRecord) -> Quotient
    ensures is { Is (can_ratio r.now) result }
    ensures small { result.den ≤ 48000000 }
{
    if beta_above_nine_tenths(r) {
        return Quotient {
            num: 2 * r.can.length * (4 * r.brace - 3 * r.diameter),
            den: 3 * (r.diameter * r.diameter),
        };
    }
    Quotient {
        num: 2 * r.can.length,
        den: 5 * r.diameter,
    }
}

// k
fn factor(r: &BraceRecord) -> Portion
    ensures is { Is (can_factor r.now) result.quotient }
    ensures least { result.quotient.den ≤ 4 * result.quotient.num }
{
    let share = Portion::at_most_one(ratio(r)).quotient;
    let thin = r.can.nominal * r.can.nominal;
    let thick = r.wall * r.wall;
    Portion {
        quotient: Quotient {
            num: share.num * thick + (share.den - share.num) * thin,
            den: share.den * thick,
        },
    }
}

fn multiplier(r: &BraceRecord, kind: Kind) -> Portion
    ensures is { Is (can_multiplier r.now kind).value result.quotient }
    ensures least { result.quotient.den ≤ 4 * result.quotient.num }
{
    match kind {
        Kind::YTension | Kind::YCompression | Kind::XTension | Kind::XCompression => factor(r),
        Kind::KAxial | Kind::InPlane | Kind::OutOfPlane => Portion::ONE,
    }
}

impl<E: Edition> Edition for Can<E> {
    ghost meaning = { λ e. canned (E.Edition.meaning e.below) };

    ghost lawful = { λ e. scaled_lawful can_multiplier 4 (E.Edition.meaning e.below) (E.Edition.lawful e.below) };

    fn width(&self) -> u64 {
        widened(self.below.width())
    }

    fn floor(&self) -> u64 {
        self.below.floor() / 4
    }

    fn tell(&self, brace: &BraceRecord, ratios: Ratios, kind: Kind) -> Option<Strength> {
        let told = self.below.tell(brace, ratios, kind)?;
        Some(multiplier(brace, kind).of(told))
    }
}
