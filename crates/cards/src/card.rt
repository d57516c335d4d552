// The cards, and why a line is none.
ghost use Rattle.std.specs.Prelude.{◌≡◌};
ghost use Rattle.cards.specs.declared.card.CardFault.TheVariants.{NotNumber};
ghost use Rattle.cards.specs.Faults.{card_fault_number, card_fault_value};

use records::limits::{BraceFigures, ChordFigures};
use verdicts::forces::ForceFigures;

// The edition, the divisor in hundredths and the can, as a card has them.
#[derive(Clone, Copy)]
pub struct PileNumbers {
    pub edition: i64,
    pub divisor: i64,
    pub can: i64,
}

// A card as a value: as fields it has the numbers of its line, in their order.
#[derive(Clone, Copy)]
pub enum Card {
    Pile(PileNumbers),
    Joint {
        joint: i64,
        figures: ChordFigures,
    },
    Brace {
        joint: i64,
        brace: i64,
        figures: BraceFigures,
    },
    Force {
        joint: i64,
        brace: i64,
        figures: ForceFigures,
    },
    Check {
        joint: i64,
        brace: i64,
    },
}

// A field that is no number, by its place; the word is 1.
#[derive(Clone, Copy)]
pub struct NumberFault {
    pub field: u8,
}

#[derive(Clone, Copy)]
pub enum CardFault {
    TooLong,
    NoWord,
    WrongCount(u8),
    NotNumber(NumberFault),
}

impl CardFault {
    // The number of the refusal.
    pub fn number(self) -> u8
        ensures { result ≡ card_fault_number self }
    {
        match self {
            CardFault::TooLong => 17,
            CardFault::NoWord => 14,
            CardFault::WrongCount(_) => 15,
            CardFault::NotNumber(_) => 16,
        }
    }

    // What is told beside the number; 0 where there is nothing.
    pub fn value(self) -> i64
        ensures { result ≡ card_fault_value self }
    {
        match self {
            CardFault::TooLong | CardFault::NoWord => 0,
            CardFault::WrongCount(count) => i64::from(count),
            CardFault::NotNumber(fault) => i64::from(fault.field),
        }
    }
}

impl From<NumberFault> for CardFault {
    ghost from_gives = { λ f r. r ≡ NotNumber f };

    fn from(fault: NumberFault) -> CardFault {
        CardFault::NotNumber(fault)
    }
}
