// Joints on both sides of every limit, each with what is wrong with it, if anything is. A row says where it differs from FITS.
use crate::joint::{FITS, Joint};
use records::limits::Figure::{
    AxialRatio, BraceDiameter, BraceWall, BraceYield, CanLength, ChordDiameter, ChordWall,
    ChordYield, Gap, InPlaneRatio, NominalWall, OutOfPlaneRatio, ShareK, ShareX, ShareY, Sine,
};
use records::limits::Misfit;
use records::limits::Misfit::{Outside, SharesSum};

// A static and not a const: a const's rows are written out anew where it is read, and the test would be too long to be checked.
pub static LIMITS: [(Joint, Option<Misfit>); 79] = [
    (FITS, None),
    (
        Joint {
            diameter: 200,
            wall: 60,
            nominal: 60,
            brace: 100,
            thickness: 60,
            ..FITS
        },
        None,
    ),
    (
        Joint {
            diameter: 199,
            wall: 60,
            nominal: 60,
            brace: 100,
            thickness: 60,
            ..FITS
        },
        Some(Outside(ChordDiameter)),
    ),
    (
        Joint {
            diameter: 4000,
            wall: 400,
            nominal: 400,
            brace: 2000,
            thickness: 400,
            ..FITS
        },
        None,
    ),
    (
        Joint {
            diameter: 4001,
            wall: 401,
            nominal: 401,
            brace: 2000,
            thickness: 400,
            ..FITS
        },
        Some(Outside(ChordDiameter)),
    ),
    (
        Joint {
            diameter: -1000,
            ..FITS
        },
        Some(Outside(ChordDiameter)),
    ),
    (
        Joint {
            diameter: 9999999999,
            ..FITS
        },
        Some(Outside(ChordDiameter)),
    ),
    (
        Joint {
            diameter: 400,
            brace: 200,
            ..FITS
        },
        None,
    ),
    (
        Joint {
            diameter: 400,
            wall: 201,
            nominal: 201,
            brace: 200,
            ..FITS
        },
        Some(Outside(ChordWall)),
    ),
    (
        Joint {
            diameter: 1200,
            wall: 120,
            nominal: 120,
            brace: 600,
            thickness: 120,
            ..FITS
        },
        None,
    ),
    (
        Joint {
            diameter: 1200,
            wall: 119,
            nominal: 119,
            brace: 600,
            thickness: 119,
            ..FITS
        },
        Some(Outside(ChordWall)),
    ),
    (
        Joint {
            diameter: 600,
            wall: 60,
            nominal: 60,
            brace: 300,
            thickness: 60,
            ..FITS
        },
        None,
    ),
    (
        Joint {
            diameter: 590,
            wall: 59,
            nominal: 59,
            brace: 300,
            thickness: 59,
            ..FITS
        },
        Some(Outside(ChordWall)),
    ),
    (
        Joint {
            wall: i64::MAX,
            ..FITS
        },
        Some(Outside(ChordWall)),
    ),
    (
        Joint {
            wall: i64::MIN,
            ..FITS
        },
        Some(Outside(ChordWall)),
    ),
    (
        Joint {
            nominal: 100,
            ..FITS
        },
        None,
    ),
    (
        Joint {
            nominal: 99,
            ..FITS
        },
        Some(Outside(NominalWall)),
    ),
    (
        Joint {
            wall: 201,
            nominal: 101,
            ..FITS
        },
        None,
    ),
    (
        Joint {
            wall: 201,
            nominal: 100,
            ..FITS
        },
        Some(Outside(NominalWall)),
    ),
    (
        Joint {
            nominal: 201,
            ..FITS
        },
        Some(Outside(NominalWall)),
    ),
    (
        Joint {
            nominal: i64::MAX,
            ..FITS
        },
        Some(Outside(NominalWall)),
    ),
    (Joint { fy: 200, ..FITS }, None),
    (Joint { fy: 199, ..FITS }, Some(Outside(ChordYield))),
    (Joint { fy: 500, ..FITS }, None),
    (Joint { fy: 501, ..FITS }, Some(Outside(ChordYield))),
    (Joint { brace: 200, ..FITS }, None),
    (Joint { brace: 199, ..FITS }, Some(Outside(BraceDiameter))),
    (
        Joint {
            brace: 1000,
            ..FITS
        },
        None,
    ),
    (
        Joint {
            brace: 1001,
            ..FITS
        },
        Some(Outside(BraceDiameter)),
    ),
    (
        Joint {
            brace: i64::MIN,
            ..FITS
        },
        Some(Outside(BraceDiameter)),
    ),
    (
        Joint {
            thickness: 50,
            ..FITS
        },
        None,
    ),
    (
        Joint {
            thickness: 49,
            ..FITS
        },
        Some(Outside(BraceWall)),
    ),
    (
        Joint {
            thickness: 400,
            ..FITS
        },
        None,
    ),
    (
        Joint {
            thickness: 401,
            ..FITS
        },
        Some(Outside(BraceWall)),
    ),
    (Joint { fyb: 200, ..FITS }, None),
    (Joint { fyb: 199, ..FITS }, Some(Outside(BraceYield))),
    (Joint { fyb: 500, ..FITS }, None),
    (Joint { fyb: 501, ..FITS }, Some(Outside(BraceYield))),
    (
        Joint {
            sine: 500000,
            ..FITS
        },
        None,
    ),
    (
        Joint {
            sine: 499999,
            ..FITS
        },
        Some(Outside(Sine)),
    ),
    (
        Joint {
            sine: 1000001,
            ..FITS
        },
        Some(Outside(Sine)),
    ),
    (Joint { gap: -600, ..FITS }, None),
    (Joint { gap: -601, ..FITS }, Some(Outside(Gap))),
    (Joint { gap: 4000, ..FITS }, None),
    (Joint { gap: 4001, ..FITS }, Some(Outside(Gap))),
    (
        Joint {
            gap: i64::MIN,
            ..FITS
        },
        Some(Outside(Gap)),
    ),
    (Joint { length: 1, ..FITS }, None),
    (Joint { length: 0, ..FITS }, Some(Outside(CanLength))),
    (
        Joint {
            length: 20000,
            ..FITS
        },
        None,
    ),
    (
        Joint {
            length: 20001,
            ..FITS
        },
        Some(Outside(CanLength)),
    ),
    (
        Joint {
            k: 1000,
            x: 0,
            ..FITS
        },
        None,
    ),
    (
        Joint {
            k: 1001,
            x: -1,
            ..FITS
        },
        Some(Outside(ShareK)),
    ),
    (
        Joint {
            k: -1,
            x: 1001,
            ..FITS
        },
        Some(Outside(ShareK)),
    ),
    (
        Joint {
            y: 1000,
            x: 0,
            ..FITS
        },
        None,
    ),
    (
        Joint {
            y: 1001,
            x: -1,
            ..FITS
        },
        Some(Outside(ShareY)),
    ),
    (
        Joint {
            y: -1,
            x: 1001,
            ..FITS
        },
        Some(Outside(ShareY)),
    ),
    (
        Joint {
            k: 1,
            x: 1001,
            ..FITS
        },
        Some(Outside(ShareX)),
    ),
    (
        Joint {
            k: 1000,
            y: 1,
            x: -1,
            ..FITS
        },
        Some(Outside(ShareX)),
    ),
    (
        Joint {
            k: 333,
            y: 333,
            x: 334,
            ..FITS
        },
        None,
    ),
    (
        Joint {
            k: 333,
            y: 333,
            x: 333,
            ..FITS
        },
        Some(SharesSum(999)),
    ),
    (
        Joint {
            k: 334,
            y: 334,
            x: 333,
            ..FITS
        },
        Some(SharesSum(1001)),
    ),
    (Joint { x: 0, ..FITS }, Some(SharesSum(0))),
    (
        Joint {
            k: 1000,
            y: 1000,
            ..FITS
        },
        Some(SharesSum(3000)),
    ),
    (Joint { p: -10000, ..FITS }, None),
    (Joint { p: -10001, ..FITS }, Some(Outside(AxialRatio))),
    (Joint { p: 10000, ..FITS }, None),
    (Joint { p: 10001, ..FITS }, Some(Outside(AxialRatio))),
    (Joint { mi: -10000, ..FITS }, None),
    (Joint { mi: -10001, ..FITS }, Some(Outside(InPlaneRatio))),
    (Joint { mi: 10000, ..FITS }, None),
    (Joint { mi: 10001, ..FITS }, Some(Outside(InPlaneRatio))),
    (Joint { mo: -10000, ..FITS }, None),
    (Joint { mo: -10001, ..FITS }, Some(Outside(OutOfPlaneRatio))),
    (Joint { mo: 10000, ..FITS }, None),
    (Joint { mo: 10001, ..FITS }, Some(Outside(OutOfPlaneRatio))),
    (
        Joint {
            diameter: 0,
            wall: 0,
            ..FITS
        },
        Some(Outside(ChordDiameter)),
    ),
    (
        Joint {
            brace: 0,
            thickness: 0,
            k: 5000,
            ..FITS
        },
        Some(Outside(BraceDiameter)),
    ),
    (
        Joint {
            thickness: 0,
            sine: 0,
            ..FITS
        },
        Some(Outside(BraceWall)),
    ),
    (
        Joint {
            x: 2000,
            p: 20000,
            ..FITS
        },
        Some(Outside(ShareX)),
    ),
];
