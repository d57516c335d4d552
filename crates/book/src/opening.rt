// Why no book is opened.
ghost use Rattle.std.specs.Prelude.{◌≡◌, pos};
ghost use Rattle.book.specs.declared.opening.Obstacle.TheVariants.{Unusable as NotUsable, Memory};
ghost use Rattle.book.specs.Openings.{unusable_cause};

use std::alloc::AllocError;

// A book is kept only by an edition with a width of at most 700 and a floor of at least 10,000.
#[derive(Clone, Copy, PartialEq, Eq, Debug)]
pub enum Unusable {
    TooWide(u64),
    TooLow(u64),
}

impl Unusable {
    // Its number in the list of all refusals, which the ledger's go on with from 3.
    pub fn number(self) -> u8
        ensures { result ≡ (unusable_cause self).number }
    {
        match self {
            Unusable::TooWide(_) => 1,
            Unusable::TooLow(_) => 2,
        }
    }

    // The width, or the floor.
    pub fn value(self) -> u64
        ensures { pos result ≡ (unusable_cause self).value }
    {
        match self {
            Unusable::TooWide(width) => width,
            Unusable::TooLow(floor) => floor,
        }
    }
}

// Not an Option of Unusable: None would not say that memory was wanting, and a `?` makes either of the two.
#[derive(Clone, Copy, PartialEq, Eq, Debug)]
pub enum Obstacle {
    Unusable(Unusable),
    Memory,
}

impl From<Unusable> for Obstacle {
    ghost from_gives = { λ u r. r ≡ NotUsable u };

    fn from(unusable: Unusable) -> Obstacle {
        Obstacle::Unusable(unusable)
    }
}

impl From<AllocError> for Obstacle {
    ghost from_gives = { λ _ r. r ≡ Memory };

    fn from(_: AllocError) -> Obstacle {
        Obstacle::Memory
    }
}

// An edition that no book was opened with, handed back.
#[derive(Drop)]
pub struct Unopened<E> {
    pub edition: E,
    pub why: Obstacle,
}
