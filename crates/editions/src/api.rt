// API RP 2A-WSD, 21st edition with Supplement 3.
ghost use Rattle.editions.specs.Api.{factor_by_api};
ghost use Rattle.editions.specs.Chords.{api_chord_factor};

use crate::api_factors::api_factor;
use crate::chord::api_chord;
use crate::code::Code;
use powers::ends::Ends;
use powers::quotient::Quotient;
use records::kind::Kind;
use records::ratios::Ratios;
use records::record::BraceRecord;

#[derive(Clone, Copy)]
pub struct Api {}

impl Code for Api {
    ghost factors = { factor_by_api };

    ghost chords = { api_chord_factor };

    fn factor(&self, brace: &BraceRecord, kind: Kind) -> Ends {
        api_factor(brace, kind)
    }

    fn chord_factor(&self, brace: &BraceRecord, ratios: Ratios, kind: Kind) -> Option<Quotient> {
        api_chord(brace, ratios, kind)
    }
}
