// Rows of the tables that both editions share.
ghost use Rattle.std.specs.Prelude.{◌*◌, ◌≤◌};
ghost use Rattle.powers.specs.Fractions.{number};
ghost use Rattle.powers.specs.Formulas.{power};
ghost use Rattle.powers.specs.Enclosures.{Near, Is, milli};
ghost use Rattle.editions.specs.Figures.{gamma as of_gamma};
ghost use Rattle.editions.specs.Factors.{Factor, q_beta, overlapped, factor_of_y_tension, factor_of_x_tension, factor_of_x_compression};

use crate::figures::{beta, gamma};
use crate::rows::{beta_above_nine_tenths, beta_above_six_tenths};
use powers::ends::Ends;
use powers::ops::exact;
use powers::quotient::Quotient;
use powers::roots::square_root;
use records::record::BraceRecord;

// Qβ
pub fn beta_factor(r: &BraceRecord) -> Quotient
    ensures is { Is (q_beta r.now) result }
    ensures small { result.num ≤ 4800000000 }
    ensures least { 59 * result.den ≤ 100 * result.num }
    ensures most { 100 * result.num ≤ 301 * result.den }
{
    if !beta_above_six_tenths(r) {
        return Quotient { num: 1, den: 1 };
    }
    Quotient {
        num: 300 * (r.diameter * r.diameter),
        den: r.brace * (1000 * r.diameter - 833 * r.brace),
    }
}

// √γ
pub fn gamma_root(r: &BraceRecord) -> Ends
    ensures { Near result (power (of_gamma r.now) (number 1 2)) (milli 3159) (milli 7073) 3 }
{
    square_root(gamma(r))
}

// The gap factor of an overlap.
pub fn overlap_value(r: &BraceRecord) -> Ends
    ensures { Near result (overlapped r.now) (milli 335) (milli 23200) 200 }
{
    let slope = exact(Quotient {
        num: 65 * (r.thickness * r.fyb),
        den: 100 * (r.wall * r.fy),
    });
    let root = gamma_root(r);
    let part = slope * root;
    let start = exact(Quotient { num: 13, den: 100 });
    start + part
}

pub fn y_tension_factor(r: &BraceRecord) -> Ends
    ensures { Factor result (factor_of_y_tension r.now) }
{
    exact(Quotient {
        num: 30 * r.brace,
        den: r.diameter,
    })
}

pub fn x_tension_factor(r: &BraceRecord) -> Ends
    ensures { Factor result (factor_of_x_tension r.now) }
{
    if !beta_above_nine_tenths(r) {
        let low = exact(Quotient {
            num: 23 * r.brace,
            den: r.diameter,
        });
        return low;
    }
    let y = 10 * r.brace - 9 * r.diameter;
    let area = r.diameter * r.wall;
    let most = 207 * area + 85 * (y * r.diameter);
    exact(Quotient {
        num: most - 220 * (y * r.wall),
        den: 10 * area,
    })
}

pub fn x_compression_factor(r: &BraceRecord) -> Ends
    ensures { Factor result (factor_of_x_compression r.now) }
{
    let slope = exact(Quotient {
        num: 24 * r.wall + r.diameter,
        den: 2 * r.wall,
    });
    let b = exact(beta(r));
    let part = slope * b;
    let start = exact(Quotient { num: 28, den: 10 });
    let sum = start + part;
    let q = exact(beta_factor(r));
    sum * q
}
