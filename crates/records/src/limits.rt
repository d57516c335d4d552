// Figures as they come, and the records that they make where they lie within their limits.
ghost use Rattle.std.specs.Prelude.{◌≡◌, IfOk};
ghost use Rattle.records.specs.declared.limits.Misfit.TheVariants.{Outside};
ghost use Rattle.records.specs.Limits.{outside, first_figure_outside, chord_limits, brace_limits, ratio_limits, brace_fault, shares_sum, RefusedBy, IsChord, IsBrace, IsRatios};

use crate::ratios::Ratios;
use crate::record::{BraceRecord, CanFigures, Chord, Shares};

#[derive(Clone, Copy)]
pub struct ChordFigures {
    pub diameter: i64,
    pub wall: i64,
    pub nominal: i64,
    pub fy: i64,
}

#[derive(Clone, Copy)]
pub struct BraceFigures {
    pub brace: i64,
    pub thickness: i64,
    pub fyb: i64,
    pub sine: i64,
    pub gap: i64,
    pub length: i64,
    pub k: i64,
    pub y: i64,
    pub x: i64,
}

// As they come, with any size: a type beside `Ratios`, which are within their limits.
#[derive(Clone, Copy)]
pub struct RatioFigures {
    pub p: i64,
    pub mi: i64,
    pub mo: i64,
}

// A figure that has limits, to name where it is outside them.
#[derive(Clone, Copy, Debug, PartialEq, Eq)]
pub enum Figure {
    ChordDiameter,
    ChordWall,
    NominalWall,
    ChordYield,
    BraceDiameter,
    BraceWall,
    BraceYield,
    Sine,
    Gap,
    CanLength,
    ShareK,
    ShareY,
    ShareX,
    AxialForce,
    InPlaneMoment,
    OutOfPlaneMoment,
    AxialRatio,
    InPlaneRatio,
    OutOfPlaneRatio,
}

// Why figures make no brace record: one is outside its limits, or the shares sum to another number than 1,000.
#[derive(Clone, Copy, Debug, PartialEq, Eq)]
pub enum Misfit {
    Outside(Figure),
    SharesSum(i64),
}

impl From<Figure> for Misfit {
    ghost from_gives = { λ figure misfit. misfit ≡ Outside figure };

    fn from(figure: Figure) -> Misfit {
        Misfit::Outside(figure)
    }
}

// A value that is to lie from low to high, and the figure to name where it does not.
#[derive(Clone, Copy)]
pub struct Limit {
    pub figure: Figure,
    pub low: i128,
    pub value: i128,
    pub high: i128,
}

impl Limit {
    fn is_outside(self) -> bool
        ensures { result ≡ outside self }
    {
        self.value < self.low || self.high < self.value
    }
}

// That every value is within its row, or the figure of the first row whose value is outside.
pub fn within(limits: &[Limit]) -> Result<(), Figure>
    ensures { RefusedBy (first_figure_outside limits.now) result }
{
    for x in limits {
        if x.is_outside() {
            return Err(x.figure);
        }
    }
    Ok(())
}

impl ChordFigures {
    fn limits(self) -> [Limit; 5]
        ensures { result ≡ chord_limits self }
    {
        [
            Limit {
                figure: Figure::ChordDiameter,
                low: 200,
                value: self.diameter as i128,
                high: 4000,
            },
            Limit {
                figure: Figure::ChordWall,
                low: 60,
                value: self.wall as i128,
                high: 2000,
            },
            Limit {
                figure: Figure::ChordWall,
                low: 2 * self.wall as i128,
                value: self.diameter as i128,
                high: 10 * self.wall as i128,
            },
            Limit {
                figure: Figure::NominalWall,
                low: self.wall as i128,
                value: 2 * self.nominal as i128,
                high: 2 * self.wall as i128,
            },
            Limit {
                figure: Figure::ChordYield,
                low: 200,
                value: self.fy as i128,
                high: 500,
            },
        ]
    }
}

impl Chord {
    // The chord, or the first figure that is outside its limits.
    pub fn new(f: ChordFigures) -> Result<Chord, Figure>
        ensures fault { RefusedBy (first_figure_outside (chord_limits f)) result }
        ensures is { IfOk result (λ c. IsChord c f) }
    {
        within(&f.limits())?;
        Ok(Chord {
            diameter: f.diameter as u64,
            wall: f.wall as u64,
            nominal: f.nominal as u64,
            fy: f.fy as u64,
        })
    }
}

impl BraceFigures {
    fn limits(self, chord: Chord) -> [Limit; 9]
        ensures { result ≡ brace_limits chord self }
    {
        let diameter = chord.diameter as i128;
        let wall = chord.wall as i128;
        [
            Limit {
                figure: Figure::BraceDiameter,
                low: diameter,
                value: 5 * self.brace as i128,
                high: 5 * diameter,
            },
            Limit {
                figure: Figure::BraceWall,
                low: wall,
                value: 4 * self.thickness as i128,
                high: 8 * wall,
            },
            Limit {
                figure: Figure::BraceYield,
                low: 200,
                value: self.fyb as i128,
                high: 500,
            },
            Limit {
                figure: Figure::Sine,
                low: 500000,
                value: self.sine as i128,
                high: 1000000,
            },
            Limit {
                figure: Figure::Gap,
                low: -3 * diameter,
                value: 5 * self.gap as i128,
                high: 20000,
            },
            Limit {
                figure: Figure::CanLength,
                low: 1,
                value: self.length as i128,
                high: 20000,
            },
            Limit {
                figure: Figure::ShareK,
                low: 0,
                value: self.k as i128,
                high: 1000,
            },
            Limit {
                figure: Figure::ShareY,
                low: 0,
                value: self.y as i128,
                high: 1000,
            },
            Limit {
                figure: Figure::ShareX,
                low: 0,
                value: self.x as i128,
                high: 1000,
            },
        ]
    }
}

impl BraceRecord {
    // The brace at a chord, or the first figure that is outside its limits, or the shares' sum.
    pub fn new(chord: Chord, f: BraceFigures) -> Result<BraceRecord, Misfit>
        ensures fault { RefusedBy (brace_fault chord f) result }
        ensures is { IfOk result (λ b. IsBrace b chord f) }
    {
        within(&f.limits(chord))?;
        let sum = f.k + f.y + f.x;
        if sum != 1000 {
            return Err(Misfit::SharesSum(sum));
        }
        let shares = Shares {
            k: f.k as u64,
            y: f.y as u64,
            x: f.x as u64,
        };
        let can = CanFigures {
            nominal: chord.nominal,
            length: f.length as u64,
        };
        Ok(BraceRecord {
            diameter: chord.diameter,
            wall: chord.wall,
            fy: chord.fy,
            brace: f.brace as u64,
            thickness: f.thickness as u64,
            fyb: f.fyb as u64,
            sine: f.sine as u64,
            gap: f.gap,
            can,
            shares,
        })
    }
}

impl RatioFigures {
    fn limits(self) -> [Limit; 3]
        ensures { result ≡ ratio_limits self }
    {
        [
            Limit {
                figure: Figure::AxialRatio,
                low: -10000,
                value: self.p as i128,
                high: 10000,
            },
            Limit {
                figure: Figure::InPlaneRatio,
                low: -10000,
                value: self.mi as i128,
                high: 10000,
            },
            Limit {
                figure: Figure::OutOfPlaneRatio,
                low: -10000,
                value: self.mo as i128,
                high: 10000,
            },
        ]
    }
}

impl Ratios {
    // The ratios, or the first that is outside its limits.
    pub fn new(f: RatioFigures) -> Result<Ratios, Figure>
        ensures fault { RefusedBy (first_figure_outside (ratio_limits f)) result }
        ensures is { IfOk result (λ q. IsRatios q f) }
    {
        within(&f.limits())?;
        Ok(Ratios {
            p: f.p,
            mi: f.mi,
            mo: f.mo,
        })
    }
}
