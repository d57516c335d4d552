// Why a line is refused.
ghost use Rattle.std.specs.Prelude.{◌≡◌};
ghost use Rattle.decks.specs.declared.fault.Fault.TheVariants.{Card as OfCard, Pile as OfPile, Book as OfBook};
ghost use Rattle.decks.specs.declared.fault.Stop.TheVariants.{Refused};
ghost use Rattle.decks.specs.Faults.{fault_cause};

use cards::card::CardFault;
use layers::pile_fault::PileFault;
use ledger::refusal::Refusal;

#[derive(Clone, Copy)]
pub enum Fault {
    Card(CardFault),
    Pile(PileFault),
    Book(Refusal),
}

impl From<CardFault> for Fault {
    ghost from_gives = { λ f r. r ≡ OfCard f };

    fn from(fault: CardFault) -> Fault {
        Fault::Card(fault)
    }
}

impl From<PileFault> for Fault {
    ghost from_gives = { λ f r. r ≡ OfPile f };

    fn from(fault: PileFault) -> Fault {
        Fault::Pile(fault)
    }
}

impl From<Refusal> for Fault {
    ghost from_gives = { λ e r. r ≡ OfBook e };

    fn from(refusal: Refusal) -> Fault {
        Fault::Book(refusal)
    }
}

impl Fault {
    pub fn number(self) -> u8
        ensures { result ≡ (fault_cause self).number }
    {
        match self {
            Fault::Card(fault) => fault.number(),
            Fault::Pile(fault) => fault.number(),
            Fault::Book(refusal) => refusal.number(),
        }
    }

    // What is told beside the number; 0 where there is nothing.
    pub fn value(self) -> i64
        ensures { result ≡ (fault_cause self).value }
    {
        match self {
            Fault::Card(fault) => fault.value(),
            Fault::Pile(fault) => i64::from(fault.field()),
            Fault::Book(refusal) => refusal.value(),
        }
    }
}

// What keeps a line from being accepted: a fault, which is told, or a want of memory, which ends the session.
#[derive(Clone, Copy)]
pub enum Stop {
    Refused(Fault),
    Memory,
}

impl From<Fault> for Stop {
    ghost from_gives = { λ f r. r ≡ Refused f };

    fn from(fault: Fault) -> Stop {
        Stop::Refused(fault)
    }
}

impl From<CardFault> for Stop {
    ghost from_gives = { λ f r. r ≡ Refused (OfCard f) };

    fn from(fault: CardFault) -> Stop {
        Stop::Refused(Fault::Card(fault))
    }
}

impl From<PileFault> for Stop {
    ghost from_gives = { λ f r. r ≡ Refused (OfPile f) };

    fn from(fault: PileFault) -> Stop {
        Stop::Refused(Fault::Pile(fault))
    }
}
