// The factors of ISO 19902:2007.
ghost use Rattle.std.specs.Prelude.{◌≡◌, ◌*◌, ◌<◌, ◌≤◌};
ghost use Rattle.powers.specs.Enclosures.{Near, milli};
ghost use Rattle.editions.specs.Factors.{Factor};
ghost use Rattle.editions.specs.Rows.{gap_row_by_iso, IsoGap, IsoBetween};
ghost use Rattle.editions.specs.Iso.{factor_by_iso, gapped, between, q_g, factor_of_y_compression};

use crate::factors::{
    beta_factor, gamma_root, overlap_value, x_compression_factor, x_tension_factor,
    y_tension_factor,
};
use crate::figures::gamma;
use crate::rows::{GapRow, iso_gap_row};
use powers::ends::Ends;
use powers::ops::{exact, greater_of};
use powers::quotient::Quotient;
use powers::raise::power_below;
use powers::roots::square_root;
use records::kind::Kind;
use records::record::BraceRecord;
use records::signs::{above, below};

fn gap_value(r: &BraceRecord) -> Ends
    requires { IsoGap r.now }
    ensures { Near result (gapped r.now) (milli 999) (milli 1800) 20 }
{
    let g = above(r.gap);
    // By `exact` and not `Ends::ONE`: its promise says how near it is to 1.
    let one = exact(Quotient { num: 1, den: 1 });
    if 81 * r.diameter < 100 * g {
        return one;
    }
    let start = exact(Quotient { num: 19, den: 10 });
    let root = square_root(Quotient {
        num: g,
        den: r.diameter,
    });
    let rest = start - root;
    greater_of(rest, one)
}

fn between_value(r: &BraceRecord) -> Ends
    requires { IsoBetween r.now }
    ensures { Near result (between r.now) (milli 334) (milli 25000) 100000 }
{
    let g = above(r.gap);
    let o = below(r.gap);
    let share = exact(Quotient {
        num: r.wall + 5 * o - 5 * g,
        den: 2 * r.wall,
    });
    let value = overlap_value(r);
    let part = share * value;
    let other = exact(Quotient {
        num: r.wall + 5 * g - 5 * o,
        den: 2 * r.wall,
    });
    let start = exact(Quotient { num: 19, den: 10 });
    let root = square_root(Quotient {
        num: r.wall,
        den: 5 * r.diameter,
    });
    let least = start - root;
    let rest = other * least;
    part + rest
}

// Qg. Not one function with API's: each code has its own rows, formulas and bounds.
fn gap_factor(r: &BraceRecord) -> Ends
    ensures { Near result (q_g (gap_row_by_iso r.now) r.now) (milli 334) (milli 25000) 100000 }
{
    match iso_gap_row(r) {
        GapRow::Gap => gap_value(r),
        GapRow::Between => between_value(r),
        GapRow::Overlap => overlap_value(r),
    }
}

// The factor of Y compression in its own bounds, which K builds on; `y_compression` says the same in those of every factor.
fn y_compression_value(r: &BraceRecord) -> Ends
    ensures { Near result (factor_of_y_compression r.now) (milli 4370) (milli 36300) 20 }
{
    let slope = exact(Quotient {
        num: 19 * r.diameter + 190 * r.brace,
        den: 10 * r.diameter,
    });
    let root = square_root(beta_factor(r));
    slope * root
}

fn k_axial(r: &BraceRecord) -> Ends
    ensures { Factor result (factor_by_iso r.now Kind.KAxial) }
{
    let part = y_compression_value(r);
    let q = gap_factor(r);
    part * q
}

fn in_plane(r: &BraceRecord) -> Ends
    ensures { Factor result (factor_by_iso r.now Kind.InPlane) }
{
    let slope = exact(Quotient {
        num: 9 * r.brace,
        den: 2 * r.diameter,
    });
    let root = gamma_root(r);
    slope * root
}

fn out_of_plane(r: &BraceRecord) -> Ends
    ensures { Factor result (factor_by_iso r.now Kind.OutOfPlane) }
{
    let start = exact(Quotient { num: 32, den: 10 });
    let exponent = Quotient {
        num: r.brace * r.brace,
        den: 2 * (r.diameter * r.diameter),
    };
    let power = power_below(gamma(r), exponent);
    start * power
}

fn y_compression(r: &BraceRecord) -> Ends
    ensures { Factor result (factor_by_iso r.now Kind.YCompression) }
{
    y_compression_value(r)
}

// The factor of a kind. A table beside API's and not one for both: which rows the codes share is read off the names.
pub fn iso_factor(r: &BraceRecord, kind: Kind) -> Ends
    ensures { Factor result (factor_by_iso r.now kind) }
{
    match kind {
        Kind::KAxial => k_axial(r),
        Kind::YTension => y_tension_factor(r),
        Kind::YCompression => y_compression(r),
        Kind::XTension => x_tension_factor(r),
        Kind::XCompression => x_compression_factor(r),
        Kind::InPlane => in_plane(r),
        Kind::OutOfPlane => out_of_plane(r),
    }
}
