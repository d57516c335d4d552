// The bare editions that a number can name.
ghost use Rattle.layers.specs.PileMeanings.{bare_meaning};
ghost use Rattle.layers.specs.PileLaws.{bare_laws};

use editions::api::Api;
use editions::edition::Edition;
use editions::iso::Iso2007;
use editions::strength::Strength;
use records::kind::Kind;
use records::ratios::Ratios;
use records::record::BraceRecord;

// An enum and not a boxed edition: a number on a card picks one of just these, and a boxed edition can't be handed out.
#[derive(Clone, Copy)]
pub enum Bare {
    Iso(Iso2007),
    Api(Api),
}

impl Edition for Bare {
    ghost meaning = { bare_meaning };

    ghost lawful = { λ e. bare_laws e };

    fn width(&self) -> u64 {
        match self {
            Bare::Iso(e) => e.width(),
            Bare::Api(e) => e.width(),
        }
    }

    fn floor(&self) -> u64 {
        match self {
            Bare::Iso(e) => e.floor(),
            Bare::Api(e) => e.floor(),
        }
    }

    fn tell(&self, brace: &BraceRecord, ratios: Ratios, kind: Kind) -> Option<Strength> {
        match self {
            Bare::Iso(e) => e.tell(brace, ratios, kind),
            Bare::Api(e) => e.tell(brace, ratios, kind),
        }
    }
}
