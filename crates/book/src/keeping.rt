// The calls on a book.
ghost use Rattle.editions.specs.Meanings.{Usable};
ghost use Rattle.ledger.specs.Ledger.{holding, empty, Enters, Adds, Loads, Withdraws};
ghost use Rattle.ledger.specs.Worsts.{Names};
ghost use Rattle.std.specs.Prelude.{◌≡◌, Some, MatchResult};
ghost use Rattle.book.specs.Openings.{open_cause, unusable_cause, Hindered, Opened, Closed};
ghost use Rattle.book.specs.Checks.{Finds, Checks};
ghost use Rattle.book.specs.Steps.{ledger_of, Moves, Step};

use crate::book::Book;
use crate::calls::{Answer, Call};
use crate::opening::{Obstacle, Unopened, Unusable};
use editions::edition::Edition;
use ledger::entries::Worst;
use ledger::refusal::Refusal;
use ledger::tables::Tables;
use records::limits::{BraceFigures, ChordFigures};
use std::alloc::Global;
use verdicts::forces::ForceFigures;
use verdicts::reckon::verdict;
use verdicts::verdict::Verdict;

// A book is kept by no wider edition, in parts in a million.
const WIDEST: u64 = 700;

// Nor by one with a lower floor, in millionths.
const LEAST_FLOOR: u64 = 10_000;

fn usable<E: Edition>(edition: &E) -> Result<(), Unusable>
    ensures { MatchResult result (λ _. Usable (E.meaning edition.now)) (λ u. open_cause (E.meaning edition.now) ≡ Some (unusable_cause u)) }
{
    let width = edition.width();
    if width > WIDEST {
        return Err(Unusable::TooWide(width));
    }
    let floor = edition.floor();
    if floor < LEAST_FLOOR {
        return Err(Unusable::TooLow(floor));
    }
    Ok(())
}

// Empty tables for an edition that a book can be kept by.
fn tables_for<E: Edition>(heap: Global, edition: &E) -> Result<Tables, Obstacle>
    ensures { MatchResult result (λ t. (holding t ≡ empty) × Usable (E.meaning edition.now)) (Hindered (E.meaning edition.now)) }
{
    usable(edition)?;
    Ok(Tables::new(heap)?)
}

impl<E: Edition> Book<E> {
    // An empty book, or the edition back. No later call on the book asks for memory.
    pub fn new(heap: Global, edition: E) -> Result<Book<E>, Unopened<E>>
        ensures { MatchResult result (Opened E.meaning edition) (Closed E.meaning edition) }
    {
        // Not by map and map_err: each of the two would take the edition.
        match tables_for(heap, &edition) {
            Ok(tables) => Ok(Book { edition, tables }),
            Err(why) => Err(Unopened { edition, why }),
        }
    }

    pub fn enter(&mut self, joint: i64, figures: ChordFigures) -> Result<(), Refusal>
        ensures { Moves self.old self.new (λ l k. Enters joint figures l k result) }
    {
        self.tables.enter(joint, figures)
    }

    // The two numbers are parameters and no struct, here and below: enter and withdraw have the joint's alone, and a refusal
    // names the one of the two that it is for.
    pub fn add(&mut self, joint: i64, brace: i64, figures: BraceFigures) -> Result<(), Refusal>
        ensures { Moves self.old self.new (λ l k. Adds joint brace figures l k result) }
    {
        self.tables.add(joint, brace, figures)
    }

    pub fn load(&mut self, joint: i64, brace: i64, figures: ForceFigures) -> Result<(), Refusal>
        ensures { Moves self.old self.new (λ l k. Loads joint brace figures l k result) }
    {
        self.tables.load(joint, brace, figures)
    }

    pub fn withdraw(&mut self, joint: i64) -> Result<(), Refusal>
        ensures { Moves self.old self.new (λ l k. Withdraws joint l k result) }
    {
        self.tables.withdraw(joint)
    }

    // What a check answers, with nothing written down.
    fn find(&self, joint: i64, brace: i64) -> Result<Verdict, Refusal>
        ensures { Finds (E.meaning self.now.edition) joint brace (ledger_of self.now) result }
    {
        let (figures, force) = self.tables.loaded(joint, brace)?;
        Ok(verdict(&self.edition, &figures, &force)?)
    }

    pub fn check(&mut self, joint: i64, brace: i64) -> Result<Verdict, Refusal>
        ensures { Moves self.old self.new (λ l k. Checks (E.meaning self.old.edition) joint brace l k result) }
    {
        let found = self.find(joint, brace)?;
        self.tables.note(joint, brace, found)?;
        Ok(found)
    }

    pub fn worst(&self) -> Result<Worst, Refusal>
        ensures { Names (ledger_of self.now) result }
    {
        self.tables.worst()
    }

    pub fn call(&mut self, call: Call) -> Result<Answer, Refusal>
        ensures { Moves self.old self.new (λ l k. Step (E.meaning self.old.edition) l call result k) }
    {
        match call {
            Call::Enter { joint, figures } => self.enter(joint, figures).map(|()| Answer::Done),
            Call::Add {
                joint,
                brace,
                figures,
            } => self.add(joint, brace, figures).map(|()| Answer::Done),
            Call::Load {
                joint,
                brace,
                figures,
            } => self.load(joint, brace, figures).map(|()| Answer::Done),
            Call::Withdraw { joint } => self.withdraw(joint).map(|()| Answer::Done),
            Call::Check { joint, brace } => self.check(joint, brace).map(Answer::Checked),
            Call::FindWorst => self.worst().map(Answer::Found),
        }
    }
}
