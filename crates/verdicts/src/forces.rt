// Figures of a force as they come, and the force that they make where they lie within their limits.
ghost use Rattle.std.specs.Prelude.{◌≡◌, IfOk};
ghost use Rattle.records.specs.Limits.{first_figure_outside, RefusedBy};
ghost use Rattle.verdicts.specs.Forces.{newton_limits, force_limits, IsForce};

use crate::force::Force;
use records::limits::{Figure, Limit, RatioFigures, within};
use records::ratios::Ratios;

#[derive(Clone, Copy)]
pub struct ForceFigures {
    pub n: i64,
    pub my: i64,
    pub mz: i64,
    pub ratios: RatioFigures,
}

impl ForceFigures {
    // The rows of the force and its moments, before those of the ratios.
    fn limits(self) -> [Limit; 3]
        ensures { result ≡ newton_limits self }
    {
        [
            Limit {
                figure: Figure::AxialForce,
                low: -100000000,
                value: self.n as i128,
                high: 100000000,
            },
            Limit {
                figure: Figure::InPlaneMoment,
                low: -100000000,
                value: self.my as i128,
                high: 100000000,
            },
            Limit {
                figure: Figure::OutOfPlaneMoment,
                low: -100000000,
                value: self.mz as i128,
                high: 100000000,
            },
        ]
    }
}

impl Force {
    // The force, or the first figure that is outside its limits.
    pub fn new(f: ForceFigures) -> Result<Force, Figure>
        ensures fault { RefusedBy (first_figure_outside (force_limits f)) result }
        ensures is { IfOk result (λ n. IsForce n f) }
    {
        within(&f.limits())?;
        let ratios = Ratios::new(f.ratios)?;
        Ok(Force {
            n: f.n,
            my: f.my,
            mz: f.mz,
            ratios,
        })
    }
}
