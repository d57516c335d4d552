// One line of input: thirteen whole numbers that describe a joint, and up to two that name layers over both editions.
ghost use Rattle.std.specs.Prelude.{IfOk};
ghost use Rattle.strengths.specs.Lines.{Described};

use layers::pile::Pile;
use layers::pile_fault::PileFault;
use records::limits::{BraceFigures, ChordFigures, Figure, Misfit, RatioFigures};
use records::ratios::Ratios;
use records::record::{BraceRecord, Chord};
use std::fmt;
use std::iter::Fuse;
use std::str::SplitWhitespace;

#[derive(Drop)]
pub struct Joint {
    pub brace: BraceRecord,
    pub ratios: Ratios,
    pub c: i64,
    pub can: i64,
    pub iso: Pile,
    pub api: Pile,
}

// What is wrong with a line; fields count from 1.
#[derive(Clone, Copy)]
pub enum Fault {
    NotText,
    Count(usize),
    NotNumber(usize),
    NoJoint(Misfit),
    NoLayers(PileFault),
}

impl From<Figure> for Fault {
    fn from(figure: Figure) -> Fault {
        Fault::NoJoint(Misfit::from(figure))
    }
}

impl From<Misfit> for Fault {
    fn from(misfit: Misfit) -> Fault {
        Fault::NoJoint(misfit)
    }
}

impl From<PileFault> for Fault {
    fn from(fault: PileFault) -> Fault {
        Fault::NoLayers(fault)
    }
}

// The words of a line, taken one after another as whole numbers; none where a word is no such number. Fused, so that the blanks
// behind the last word are gone over once.
#[derive(Drop)]
struct Numbers<'a> {
    words: Fuse<SplitWhitespace<'a>>,
}

impl Numbers<'_> {
    // The next number of those that each line has.
    fn number(&mut self) -> Option<i64> {
        self.words.next()?.parse().ok()
    }

    // The next number, or `missing` where the line ends.
    fn number_or(&mut self, missing: i64) -> Option<i64> {
        match self.words.next() {
            Some(word) => word.parse().ok(),
            None => Some(missing),
        }
    }
}

// The numbers of a line.
#[derive(Clone, Copy)]
struct Figures {
    chord: ChordFigures,
    brace: BraceFigures,
    ratios: RatioFigures,
    c: i64,
    can: i64,
}

// The figures of a line of 13 to 15 whole numbers, which is gone over once; else none. Where a line has no fourteenth number there is
// no divisor, and where it has no fifteenth no can. Strengths do not depend on the class shares: all is taken as X.
fn figures_of(text: &str) -> Option<Figures> {
    let mut numbers = Numbers {
        words: text.split_whitespace().fuse(),
    };
    let chord = ChordFigures {
        diameter: numbers.number()?,
        wall: numbers.number()?,
        nominal: numbers.number()?,
        fy: numbers.number()?,
    };
    let brace = BraceFigures {
        brace: numbers.number()?,
        thickness: numbers.number()?,
        fyb: numbers.number()?,
        sine: numbers.number()?,
        gap: numbers.number()?,
        length: numbers.number()?,
        k: 0,
        y: 0,
        x: 1000,
    };
    let ratios = RatioFigures {
        p: numbers.number()?,
        mi: numbers.number()?,
        mo: numbers.number()?,
    };
    let c = numbers.number_or(100)?;
    let can = numbers.number_or(0)?;
    match numbers.words.next() {
        Some(_) => None,
        None => Some(Figures {
            chord,
            brace,
            ratios,
            c,
            can,
        }),
    }
}

// What is wrong with a line that has no figures: too few or too many words, told by their count whatever else is wrong with it, or
// else the first word that is no whole number. Words behind the fifteenth are counted and not read.
fn fault_of(text: &str) -> Fault {
    let mut count = 0;
    let mut first_bad = None;
    for (field, word) in (1..=usize::MAX).zip(text.split_whitespace()) {
        count = field;
        if field <= 15 && first_bad.is_none() && word.parse::<i64>().is_err() {
            first_bad = Some(field);
        }
    }
    match (count, first_bad) {
        (13..=15, Some(field)) => Fault::NotNumber(field),
        _ => Fault::Count(count),
    }
}

fn read_figures(text: &str) -> Result<Figures, Fault> {
    figures_of(text).ok_or_else(|| fault_of(text))
}

fn described(figures: Figures) -> Result<Joint, Fault>
    ensures { IfOk result Described }
{
    let Figures { c, can, .. } = figures;
    let chord = Chord::new(figures.chord)?;
    let brace = BraceRecord::new(chord, figures.brace)?;
    let ratios = Ratios::new(figures.ratios)?;
    let iso = Pile::of(1, c, can)?;
    let api = Pile::of(2, c, can)?;
    Ok(Joint {
        brace,
        ratios,
        c,
        can,
        iso,
        api,
    })
}

pub fn read_joint(bytes: &[u8]) -> Result<Joint, Fault>
    ensures { IfOk result Described }
{
    let text = std::str::from_utf8(bytes).map_err(|_| Fault::NotText)?;
    described(read_figures(text)?)
}

// The field of a figure on a line, or none for a figure that no line has.
fn field(figure: Figure) -> Option<u8> {
    match figure {
        Figure::ChordDiameter => Some(1),
        Figure::ChordWall => Some(2),
        Figure::NominalWall => Some(3),
        Figure::ChordYield => Some(4),
        Figure::BraceDiameter => Some(5),
        Figure::BraceWall => Some(6),
        Figure::BraceYield => Some(7),
        Figure::Sine => Some(8),
        Figure::Gap => Some(9),
        Figure::CanLength => Some(10),
        Figure::AxialRatio => Some(11),
        Figure::InPlaneRatio => Some(12),
        Figure::OutOfPlaneRatio => Some(13),
        Figure::ShareK | Figure::ShareY | Figure::ShareX => None,
        Figure::AxialForce | Figure::InPlaneMoment | Figure::OutOfPlaneMoment => None,
    }
}

// A figure by the letter that engineers write for it.
#[derive(Clone, Copy)]
struct Letter(Figure);

impl fmt::Display for Letter {
    fn fmt<W: fmt::Write>(&self, f: &mut fmt::Formatter<W>) -> fmt::Result {
        f.pad(match self.0 {
            Figure::ChordDiameter => "D",
            Figure::ChordWall => "T",
            Figure::NominalWall => "Tn",
            Figure::ChordYield => "fy",
            Figure::BraceDiameter => "d",
            Figure::BraceWall => "t",
            Figure::BraceYield => "fyb",
            Figure::Sine => "s",
            Figure::Gap => "g",
            Figure::CanLength => "Lc",
            Figure::ShareK => "K share",
            Figure::ShareY => "Y share",
            Figure::ShareX => "X share",
            Figure::AxialRatio => "p",
            Figure::InPlaneRatio => "mi",
            Figure::OutOfPlaneRatio => "mo",
            Figure::AxialForce => "N",
            Figure::InPlaneMoment => "My",
            Figure::OutOfPlaneMoment => "Mz",
        })
    }
}

impl fmt::Display for Fault {
    fn fmt<W: fmt::Write>(&self, f: &mut fmt::Formatter<W>) -> fmt::Result {
        match self {
            Fault::NotText => write!(f, "not text"),
            Fault::Count(count) => write!(f, "{count} numbers, where 13 to 15 are wanted"),
            Fault::NotNumber(field) => write!(f, "field {field} is no whole number"),
            Fault::NoJoint(Misfit::Outside(figure)) => {
                let letter = Letter(*figure);
                match field(*figure) {
                    Some(place) => write!(f, "field {place}, {letter}, is outside its limits"),
                    None => write!(f, "{letter} is outside its limits"),
                }
            }
            Fault::NoJoint(Misfit::SharesSum(sum)) => write!(f, "the shares sum to {sum}"),
            Fault::NoLayers(PileFault::Divisor) => write!(f, "field 14, c, is outside its limits"),
            Fault::NoLayers(_) => write!(f, "field 15, can, is outside its limits"),
        }
    }
}
