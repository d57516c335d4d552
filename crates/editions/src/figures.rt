// The figures of a record as quotients.
ghost use Rattle.std.specs.Prelude.{◌*◌, ◌≤◌};
ghost use Rattle.powers.specs.Enclosures.{Is, UpToOne};
ghost use Rattle.editions.specs.Figures.{beta as of_beta, gamma as of_gamma};

use powers::quotient::Quotient;
use records::record::BraceRecord;

// β
pub fn beta(r: &BraceRecord) -> Quotient
    ensures is { Is (of_beta r.now) result }
    ensures range { UpToOne result }
{
    Quotient {
        num: r.brace,
        den: r.diameter,
    }
}

// γ
pub fn gamma(r: &BraceRecord) -> Quotient
    ensures is { Is (of_gamma r.now) result }
    ensures small { result.num ≤ 20000 }
    ensures range { (10 * result.den ≤ result.num) × (result.num ≤ 50 * result.den) }
{
    Quotient {
        num: 5 * r.diameter,
        den: r.wall,
    }
}
