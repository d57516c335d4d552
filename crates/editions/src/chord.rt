// The chord's factor Qf, exact.
ghost use Rattle.std.specs.Prelude.{◌≡◌, ◌+◌, ◌*◌, ◌≤◌};
ghost use Rattle.editions.specs.Rows.{above_nine_tenths};
ghost use Rattle.editions.specs.Chords.{Split, written, tenths as of_tenths, axial_square, bending_square, ChordTold, coefficients_by_api, coefficients_of_x, api_q_f, api_chord_factor, weights_by_iso, iso_q_f};

use crate::coefficients::{Coefficients, Signs, Weights};
use crate::rows::beta_above_nine_tenths;
use powers::quotient::Quotient;
use records::kind::Kind;
use records::ratios::Ratios;
use records::record::BraceRecord;
use records::signs::{above, below};

impl Signs {
    // P²
    fn axial_square(self) -> u64
        ensures is { result ≡ axial_square self }
        ensures small { result ≤ 100000000 }
    {
        let p = self.tension + self.compression;
        p * p
    }

    // I² + O²
    fn bending_square(self) -> u64
        ensures is { result ≡ bending_square self }
        ensures small { result ≤ 200000000 }
    {
        let i = self.closing + self.opening;
        i * i + self.side * self.side
    }
}

impl From<Ratios> for Signs {
    ghost from_gives = { Split };

    fn from(q: Ratios) -> Signs {
        Signs {
            tension: above(q.p),
            compression: below(q.p),
            closing: above(q.mi),
            opening: below(q.mi),
            side: above(q.mo) + below(q.mo),
        }
    }
}

// C1, C2 and C3 in tenths.
fn tenths(rise: u64, close: u64, square: u64) -> Coefficients
    requires { (rise ≤ 3) × (close ≤ 2) × (square ≤ 8) }
    ensures { written result ≡ of_tenths rise close square }
{
    Coefficients {
        over: 1,
        rise,
        fall: 0,
        close,
        square,
    }
}

fn x_coefficients(r: &BraceRecord) -> Coefficients
    ensures { written result ≡ coefficients_of_x r.now }
{
    if !beta_above_nine_tenths(r) {
        return tenths(2, 0, 5);
    }
    Coefficients {
        over: r.diameter,
        rise: (38 * r.diameter).saturating_sub(40 * r.brace),
        fall: (40 * r.brace).saturating_sub(38 * r.diameter),
        close: 0,
        square: 32 * r.diameter - 30 * r.brace,
    }
}

// API's coefficients for a kind.
fn api_coefficients(r: &BraceRecord, kind: Kind) -> Coefficients
    ensures { written result ≡ coefficients_by_api r.now kind }
{
    match kind {
        Kind::KAxial => tenths(2, 2, 3),
        Kind::YTension | Kind::YCompression => tenths(3, 0, 8),
        Kind::XTension | Kind::XCompression => x_coefficients(r),
        Kind::InPlane | Kind::OutOfPlane => tenths(2, 0, 4),
    }
}

impl Coefficients {
    fn chord_factor(self, q: Ratios) -> Option<Quotient>
        ensures { ChordTold (api_q_f (written self) q) result }
    {
        let s = Signs::from(q);
        let rise = self.rise * s.tension + self.fall * s.compression + self.close * s.opening;
        let fall = self.rise * s.compression + self.fall * s.tension + self.close * s.closing;
        let whole = 1000000000 * self.over;
        let gain = whole + 10000 * rise;
        let loss = 10000 * fall + self.square * (s.axial_square() + s.bending_square());
        if 10 * gain < whole + 10 * loss {
            return None;
        }
        Some(Quotient {
            num: gain - loss,
            den: whole,
        })
    }
}

// Qf by API, or none where the chord is spent.
pub fn api_chord(r: &BraceRecord, q: Ratios, kind: Kind) -> Option<Quotient>
    ensures { ChordTold (api_chord_factor r.now q kind) result }
{
    api_coefficients(r, kind).chord_factor(q)
}

// ISO's weights for a kind.
fn iso_weights(kind: Kind) -> Weights
    ensures { result ≡ weights_by_iso kind }
{
    match kind {
        Kind::KAxial => Weights {
            w: 30,
            axial: 14,
            bending: 43,
        },
        Kind::YTension | Kind::YCompression => Weights {
            w: 30,
            axial: 25,
            bending: 11,
        },
        Kind::XTension | Kind::XCompression => Weights {
            w: 30,
            axial: 20,
            bending: 22,
        },
        Kind::InPlane => Weights {
            w: 45,
            axial: 25,
            bending: 43,
        },
        Kind::OutOfPlane => Weights {
            w: 21,
            axial: 25,
            bending: 43,
        },
    }
}

impl Weights {
    fn chord_factor(self, q: Ratios) -> Option<Quotient>
        ensures { ChordTold (iso_q_f self q) result }
    {
        let s = Signs::from(q);
        let axial = self.axial as u64 * s.axial_square();
        let bending = self.bending as u64 * s.bending_square();
        let loss = self.w as u64 * (axial + bending);
        if 90000000000 < loss {
            return None;
        }
        Some(Quotient {
            num: 100000000000 - loss,
            den: 100000000000,
        })
    }
}

// Qf by ISO, or none where the chord is spent.
pub fn iso_chord(q: Ratios, kind: Kind) -> Option<Quotient>
    ensures { ChordTold (iso_q_f (weights_by_iso kind) q) result }
{
    iso_weights(kind).chord_factor(q)
}
