// Which row of the rules applies to a brace.
ghost use Rattle.std.specs.Prelude.{◌≡◌, ◌≤◌};
ghost use Rattle.editions.specs.declared.rows.GapRow.TheVariants.{Gap, Between};
ghost use Rattle.editions.specs.Rows.{above_six_tenths, above_nine_tenths, row_of_gap, gap_row_by_api, gap_row_by_iso, ApiBetween, IsoGap, IsoBetween};

use records::record::BraceRecord;
use records::signs::{above, below};

// The rows of a gap factor: a gap, an overlap, or too little of either.
#[derive(Clone, Copy)]
pub enum GapRow {
    Gap,
    Between,
    Overlap,
}

// Two comparisons and not one with its bound as an argument: each is the rule of its name multiplied out, in one line, which a
// shared one would only move.

// Whether β is above 0.6.
pub fn beta_above_six_tenths(r: &BraceRecord) -> bool
    ensures { result ≡ above_six_tenths r.now }
{
    3 * r.diameter < 5 * r.brace
}

// Whether β is above 0.9.
pub fn beta_above_nine_tenths(r: &BraceRecord) -> bool
    ensures { result ≡ above_nine_tenths r.now }
{
    9 * r.diameter < 10 * r.brace
}

// The row of a gap factor: a gap of one of these parts of the span or more, an overlap of as much, or too little of either.
fn gap_row(r: &BraceRecord, span: u64, parts: u64) -> GapRow
    requires { parts ≤ 20 }
    ensures { result ≡ row_of_gap span parts r.now }
{
    if span <= parts * above(r.gap) {
        return GapRow::Gap;
    }
    if span <= parts * below(r.gap) {
        return GapRow::Overlap;
    }
    GapRow::Between
}

// The row of API's gap factor.
pub fn api_gap_row(r: &BraceRecord) -> GapRow
    ensures is { result ≡ gap_row_by_api r.now }
    ensures between { result ≡ Between → ApiBetween r.now }
{
    gap_row(r, r.diameter, 20)
}

// The row of ISO's gap factor.
pub fn iso_gap_row(r: &BraceRecord) -> GapRow
    ensures is { result ≡ gap_row_by_iso r.now }
    ensures gap { result ≡ Gap → IsoGap r.now }
    ensures between { result ≡ Between → IsoBetween r.now }
{
    gap_row(r, r.wall, 5)
}
