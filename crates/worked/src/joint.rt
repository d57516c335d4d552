// A joint by its figures, as they come.
use records::limits::{BraceFigures, ChordFigures, Misfit, RatioFigures};
use records::ratios::Ratios;
use records::record::{BraceRecord, Chord};

// The figures of the chord, the brace and the ratios in one struct, so that a row of the table says by `..FITS` only where it
// differs, whichever of the three that is in.
#[derive(Clone, Copy, Debug)]
pub struct Joint {
    pub diameter: i64,
    pub wall: i64,
    pub nominal: i64,
    pub fy: i64,
    pub brace: i64,
    pub thickness: i64,
    pub fyb: i64,
    pub sine: i64,
    pub gap: i64,
    pub length: i64,
    pub k: i64,
    pub y: i64,
    pub x: i64,
    pub p: i64,
    pub mi: i64,
    pub mo: i64,
}

// Well within every limit, with all its axial force in class X and no load on the chord.
pub const FITS: Joint = Joint {
    diameter: 1000,
    wall: 200,
    nominal: 200,
    fy: 350,
    brace: 500,
    thickness: 200,
    fyb: 350,
    sine: 1000000,
    gap: 50,
    length: 500,
    k: 0,
    y: 0,
    x: 1000,
    p: 0,
    mi: 0,
    mo: 0,
};

impl Joint {
    // The records that the figures make, or what is wrong with them.
    pub(crate) fn records(self) -> Result<(BraceRecord, Ratios), Misfit> {
        let chord = Chord::new(ChordFigures {
            diameter: self.diameter,
            wall: self.wall,
            nominal: self.nominal,
            fy: self.fy,
        })?;
        let figures = BraceFigures {
            brace: self.brace,
            thickness: self.thickness,
            fyb: self.fyb,
            sine: self.sine,
            gap: self.gap,
            length: self.length,
            k: self.k,
            y: self.y,
            x: self.x,
        };
        let brace = BraceRecord::new(chord, figures)?;
        let ratios = Ratios::new(RatioFigures {
            p: self.p,
            mi: self.mi,
            mo: self.mo,
        })?;
        Ok((brace, ratios))
    }
}
