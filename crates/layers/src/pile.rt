// What a PILE card can name: an edition, with or without a can, with or without a divisor, the divisor on top.
ghost use Rattle.layers.specs.PileMeanings.{pile_meaning};
ghost use Rattle.layers.specs.PileLaws.{pile_laws};

use crate::bare::Bare;
use crate::can::Can;
use crate::divisor::Divisor;
use editions::edition::Edition;
use editions::strength::Strength;
use records::kind::Kind;
use records::ratios::Ratios;
use records::record::BraceRecord;

// An enum and not a boxed edition: a card picks one of just these four, and a boxed edition can't be handed out.
#[derive(Drop)]
pub enum Pile {
    Plain(Bare),
    Canned(Can<Bare>),
    Divided(Divisor<Bare>),
    CannedDivided(Divisor<Can<Bare>>),
}

impl Edition for Pile {
    ghost meaning = { pile_meaning };

    ghost lawful = { λ e. pile_laws e };

    fn width(&self) -> u64 {
        match self {
            Pile::Plain(e) => e.width(),
            Pile::Canned(e) => e.width(),
            Pile::Divided(e) => e.width(),
            Pile::CannedDivided(e) => e.width(),
        }
    }

    fn floor(&self) -> u64 {
        match self {
            Pile::Plain(e) => e.floor(),
            Pile::Canned(e) => e.floor(),
            Pile::Divided(e) => e.floor(),
            Pile::CannedDivided(e) => e.floor(),
        }
    }

    fn tell(&self, brace: &BraceRecord, ratios: Ratios, kind: Kind) -> Option<Strength> {
        match self {
            Pile::Plain(e) => e.tell(brace, ratios, kind),
            Pile::Canned(e) => e.tell(brace, ratios, kind),
            Pile::Divided(e) => e.tell(brace, ratios, kind),
            Pile::CannedDivided(e) => e.tell(brace, ratios, kind),
        }
    }
}
