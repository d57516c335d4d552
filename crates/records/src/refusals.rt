// The numbers and values of refusals for figures.
ghost use Rattle.std.specs.Prelude.{◌≡◌};
ghost use Rattle.records.specs.Refusals.{figure_number, figure_field, misfit_number, misfit_value};

use crate::limits::{Figure, Misfit};

impl Figure {
    // The number of a refusal for this figure.
    pub fn number(self) -> u8
        ensures { result ≡ figure_number self }
    {
        match self {
            Figure::ChordDiameter | Figure::ChordWall | Figure::NominalWall | Figure::ChordYield =>
                7,
            Figure::AxialForce | Figure::InPlaneMoment | Figure::OutOfPlaneMoment => 10,
            Figure::AxialRatio | Figure::InPlaneRatio | Figure::OutOfPlaneRatio => 10,
            _ => 8,
        }
    }

    // Its field on a card, the word being 1.
    pub fn field(self) -> u8
        ensures { result ≡ figure_field self }
    {
        match self {
            Figure::ChordDiameter => 3,
            Figure::ChordWall => 4,
            Figure::NominalWall => 5,
            Figure::ChordYield => 6,
            Figure::BraceDiameter => 4,
            Figure::BraceWall => 5,
            Figure::BraceYield => 6,
            Figure::Sine => 7,
            Figure::Gap => 8,
            Figure::CanLength => 9,
            Figure::ShareK => 10,
            Figure::ShareY => 11,
            Figure::ShareX => 12,
            Figure::AxialForce => 4,
            Figure::InPlaneMoment => 5,
            Figure::OutOfPlaneMoment => 6,
            Figure::AxialRatio => 7,
            Figure::InPlaneRatio => 8,
            Figure::OutOfPlaneRatio => 9,
        }
    }
}

impl Misfit {
    // The number of the refusal.
    pub fn number(self) -> u8
        ensures { result ≡ misfit_number self }
    {
        match self {
            Misfit::Outside(figure) => figure.number(),
            Misfit::SharesSum(_) => 9,
        }
    }

    // Its value: the field, or the sum of the shares.
    pub fn value(self) -> i64
        ensures { result ≡ misfit_value self }
    {
        match self {
            Misfit::Outside(figure) => figure.field() as i64,
            Misfit::SharesSum(sum) => sum,
        }
    }
}
