// ISO 19902:2007.
ghost use Rattle.editions.specs.Iso.{factor_by_iso};
ghost use Rattle.editions.specs.Chords.{iso_chord_factor};

use crate::chord::iso_chord;
use crate::code::Code;
use crate::iso_factors::iso_factor;
use powers::ends::Ends;
use powers::quotient::Quotient;
use records::kind::Kind;
use records::ratios::Ratios;
use records::record::BraceRecord;

#[derive(Clone, Copy)]
pub struct Iso2007 {}

impl Code for Iso2007 {
    ghost factors = { factor_by_iso };

    ghost chords = { iso_chord_factor };

    fn factor(&self, brace: &BraceRecord, kind: Kind) -> Ends {
        iso_factor(brace, kind)
    }

    fn chord_factor(&self, _brace: &BraceRecord, ratios: Ratios, kind: Kind) -> Option<Quotient> {
        iso_chord(ratios, kind)
    }
}
