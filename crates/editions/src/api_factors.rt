// The factors of API RP 2A.
ghost use Rattle.std.specs.Prelude.{◌≡◌, ◌*◌, ◌<◌, ◌≤◌};
ghost use Rattle.powers.specs.Formulas.{constant};
ghost use Rattle.powers.specs.Enclosures.{Near, milli};
ghost use Rattle.editions.specs.Factors.{Factor};
ghost use Rattle.editions.specs.Rows.{gap_row_by_api, ApiBetween};
ghost use Rattle.editions.specs.Api.{factor_by_api, gapped, between, q_g};

use crate::factors::{overlap_value, x_compression_factor, x_tension_factor, y_tension_factor};
use crate::figures::beta;
use crate::rows::{GapRow, api_gap_row};
use powers::ends::Ends;
use powers::ops::exact;
use powers::quotient::Quotient;
use powers::roots::{eight_fifths, six_fifths, thirteen_fifths};
use records::kind::Kind;
use records::record::BraceRecord;
use records::signs::{above, below};

fn gap_value(r: &BraceRecord) -> Ends
    ensures { Near result (constant (gapped r.now)) (milli 999) (milli 1201) 3 }
{
    let whole = 10 * r.diameter;
    let rest = whole.saturating_sub(28 * above(r.gap));
    let cube = 10 * (whole * whole * whole);
    exact(Quotient {
        num: cube + 2 * (rest * rest * rest),
        den: cube,
    })
}

fn between_value(r: &BraceRecord) -> Ends
    requires { ApiBetween r.now }
    ensures { Near result (between r.now) (milli 334) (milli 24500) 100000 }
{
    let g = above(r.gap);
    let o = below(r.gap);
    let share = exact(Quotient {
        num: r.diameter + 20 * o - 20 * g,
        den: 2 * r.diameter,
    });
    let value = overlap_value(r);
    let part = share * value;
    let rest = exact(Quotient {
        num: (r.diameter + 20 * g - 20 * o) * 11272112,
        den: 20000000 * r.diameter,
    });
    part + rest
}

// Qg. Not one function with ISO's: each code has its own rows, formulas and bounds.
fn gap_factor(r: &BraceRecord) -> Ends
    ensures { Near result (q_g (gap_row_by_api r.now) r.now) (milli 334) (milli 24500) 100000 }
{
    match api_gap_row(r) {
        GapRow::Gap => gap_value(r),
        GapRow::Between => between_value(r),
        GapRow::Overlap => overlap_value(r),
    }
}

fn k_axial(r: &BraceRecord) -> Ends
    ensures { Factor result (factor_by_api r.now Kind.KAxial) }
{
    let slope = exact(Quotient {
        num: (16 * r.wall + 6 * r.diameter).min(40 * r.wall),
        den: r.wall,
    });
    let power = six_fifths(beta(r));
    let part = slope * power;
    let q = gap_factor(r);
    part * q
}

fn y_compression(r: &BraceRecord) -> Ends
    ensures { Factor result (factor_by_api r.now Kind.YCompression) }
{
    let slope = exact(Quotient {
        num: (20 * r.wall + 4 * r.diameter).min(36 * r.wall),
        den: r.wall,
    });
    let power = eight_fifths(beta(r));
    let part = slope * power;
    let start = exact(Quotient { num: 28, den: 10 });
    start + part
}

fn in_plane(r: &BraceRecord) -> Ends
    ensures { Factor result (factor_by_api r.now Kind.InPlane) }
{
    let slope = exact(Quotient {
        num: 10 * r.wall + 7 * r.diameter,
        den: 2 * r.wall,
    });
    let power = six_fifths(beta(r));
    slope * power
}

fn out_of_plane(r: &BraceRecord) -> Ends
    ensures { Factor result (factor_by_api r.now Kind.OutOfPlane) }
{
    let slope = exact(Quotient {
        num: 45 * r.wall + 10 * r.diameter,
        den: 10 * r.wall,
    });
    let power = thirteen_fifths(beta(r));
    let part = slope * power;
    let start = exact(Quotient { num: 25, den: 10 });
    start + part
}

// The factor of a kind. A table beside ISO's and not one for both: which rows the codes share is read off the names.
pub fn api_factor(r: &BraceRecord, kind: Kind) -> Ends
    ensures { Factor result (factor_by_api r.now kind) }
{
    match kind {
        Kind::KAxial => k_axial(r),
        Kind::YTension => y_tension_factor(r),
        Kind::YCompression => y_compression(r),
        Kind::XTension => x_tension_factor(r),
        Kind::XCompression => x_compression_factor(r),
        Kind::InPlane => in_plane(r),
        Kind::OutOfPlane => out_of_plane(r),
    }
}
