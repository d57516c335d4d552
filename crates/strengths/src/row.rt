// A row of a code's table: where the gap and β lie, if the table asks.
ghost use Rattle.std.specs.Prelude.{◌≡◌};
ghost use Rattle.strengths.specs.Rows.{beta_row as beta_row_by};

use editions::rows::{GapRow, beta_above_nine_tenths, beta_above_six_tenths};
use records::record::BraceRecord;
use std::fmt;

#[derive(Clone, Copy)]
pub enum Bound {
    SixTenths,
    NineTenths,
}

#[derive(Clone, Copy)]
pub enum BetaRow {
    UpTo(Bound),
    Above(Bound),
}

#[derive(Clone, Copy)]
pub struct Row {
    pub gap: Option<GapRow>,
    pub beta: Option<BetaRow>,
}

pub fn beta_row(bound: Bound, r: &BraceRecord) -> BetaRow
    ensures { result ≡ beta_row_by bound r.now }
{
    // One of two functions, as the editions have a comparison of its own for each bound.
    let above = match bound {
        Bound::SixTenths => beta_above_six_tenths(r),
        Bound::NineTenths => beta_above_nine_tenths(r),
    };
    if above {
        BetaRow::Above(bound)
    } else {
        BetaRow::UpTo(bound)
    }
}

// A row of a gap factor, in words.
#[derive(Clone, Copy)]
struct InWords(GapRow);

impl fmt::Display for InWords {
    fn fmt<W: fmt::Write>(&self, f: &mut fmt::Formatter<W>) -> fmt::Result {
        f.pad(match self.0 {
            GapRow::Gap => "gap",
            GapRow::Between => "between",
            GapRow::Overlap => "overlap",
        })
    }
}

impl fmt::Display for BetaRow {
    fn fmt<W: fmt::Write>(&self, f: &mut fmt::Formatter<W>) -> fmt::Result {
        f.pad(match self {
            BetaRow::UpTo(Bound::SixTenths) => "beta up to 0.6",
            BetaRow::UpTo(Bound::NineTenths) => "beta up to 0.9",
            BetaRow::Above(Bound::SixTenths) => "beta above 0.6",
            BetaRow::Above(Bound::NineTenths) => "beta above 0.9",
        })
    }
}

impl fmt::Display for Row {
    fn fmt<W: fmt::Write>(&self, f: &mut fmt::Formatter<W>) -> fmt::Result {
        match self.beta {
            None => write!(f, "{:<14} ", "any beta")?,
            Some(beta) => write!(f, "{beta:<14} ")?,
        }
        match self.gap {
            None => write!(f, "{:<7}", ""),
            Some(gap) => write!(f, "{:<7}", InWords(gap)),
        }
    }
}
