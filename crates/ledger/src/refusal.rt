// Why a call is refused.
ghost use Rattle.std.specs.Prelude.{◌≡◌};
ghost use Rattle.ledger.specs.declared.refusal.Refusal.TheVariants.{Outside, NoBrace, Spent as SpentChord};
ghost use Rattle.ledger.specs.Causes.{cause, place_field, room_limit};

use crate::tables::{MOST_BRACES, MOST_BRACES_AT_JOINT, MOST_JOINTS};
use records::limits::{Figure, Misfit};
use verdicts::verdict::Spent;

#[derive(Clone, Copy, PartialEq, Eq, Debug)]
pub enum Place {
    Joint,
    Brace,
}

#[derive(Clone, Copy, PartialEq, Eq, Debug)]
pub enum Room {
    Joints,
    Braces,
    BracesAtJoint,
}

#[derive(Clone, Copy, PartialEq, Eq, Debug)]
pub enum Refusal {
    NumberOutside(Place),
    NumberInUse(Place),
    Unknown(Place),
    Full(Room),
    Outside(Figure),
    NoBrace(Misfit),
    NotLoaded,
    Spent(Spent),
    Unchecked,
}

impl From<Figure> for Refusal {
    ghost from_gives = { λ x r. r ≡ Outside x };

    fn from(figure: Figure) -> Refusal {
        Refusal::Outside(figure)
    }
}

impl From<Misfit> for Refusal {
    ghost from_gives = { λ m r. r ≡ NoBrace m };

    fn from(misfit: Misfit) -> Refusal {
        Refusal::NoBrace(misfit)
    }
}

impl From<Spent> for Refusal {
    ghost from_gives = { λ s r. r ≡ SpentChord s };

    fn from(spent: Spent) -> Refusal {
        Refusal::Spent(spent)
    }
}

impl Place {
    // Its field on a card, the word being 1.
    fn field(self) -> i64
        ensures { result ≡ place_field self }
    {
        match self {
            Place::Joint => 2,
            Place::Brace => 3,
        }
    }
}

impl Room {
    fn limit(self) -> i64
        ensures { result ≡ room_limit self }
    {
        match self {
            Room::Joints => MOST_JOINTS as i64,
            Room::Braces => MOST_BRACES as i64,
            Room::BracesAtJoint => MOST_BRACES_AT_JOINT as i64,
        }
    }
}

impl Refusal {
    pub fn number(self) -> u8
        ensures { result ≡ (cause self).number }
    {
        match self {
            Refusal::NumberOutside(_) => 3,
            Refusal::NumberInUse(_) => 4,
            Refusal::Unknown(_) => 5,
            Refusal::Full(_) => 6,
            Refusal::Outside(figure) => figure.number(),
            Refusal::NoBrace(misfit) => misfit.number(),
            Refusal::NotLoaded => 11,
            Refusal::Spent(_) => 12,
            Refusal::Unchecked => 13,
        }
    }

    // The field, the limit met, the sum or the number of a kind; 0 where there is nothing to tell.
    pub fn value(self) -> i64
        ensures { result ≡ (cause self).value }
    {
        match self {
            Refusal::NumberOutside(place) | Refusal::NumberInUse(place) | Refusal::Unknown(place) =>
                place.field(),
            Refusal::Full(room) => room.limit(),
            Refusal::Outside(figure) => figure.field() as i64,
            Refusal::NoBrace(misfit) => misfit.value(),
            Refusal::Spent(spent) => spent.kind.number() as i64,
            Refusal::NotLoaded | Refusal::Unchecked => 0,
        }
    }
}
