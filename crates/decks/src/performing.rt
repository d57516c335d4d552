// What a session makes of a card, and of a line.
ghost use Rattle.std.specs.Prelude.{◌≡◌, Some};
ghost use Rattle.decks.specs.Desks.{closed};
ghost use Rattle.decks.specs.Sessions.{desk_with, desk_of, is_desk_open, Opening, Performs, Takes, Stopping};

use crate::fault::{Fault, Stop};
use crate::output::CheckLine;
use crate::session::Session;
use book::book::Book;
use cards::card::{Card, CardFault, PileNumbers};
use cards::reading::read;
use layers::pile::Pile;
use std::alloc::Global;

impl Session {
    pub fn new(heap: Global) -> Session
        ensures { desk_of result ≡ closed }
    {
        Session { heap, book: None }
    }

    pub fn is_open(&self) -> bool
        ensures { result ≡ is_desk_open (desk_of self.now) }
    {
        self.book.is_some()
    }

    fn perform(&mut self, card: Card) -> Result<Option<CheckLine>, Stop>
        ensures { Stopping result (λ q. Performs (desk_of self.old) card q (desk_of self.new)) }
    {
        match (&mut self.book, card) {
            (Some(book), card) => Ok(turn(book, card)?),
            (None, Card::Pile(numbers)) => {
                self.book = Some(opened(self.heap, numbers)?);
                Ok(None)
            }
            (None, _) => Err(CardFault::NoWord.into()),
        }
    }

    // What is told of a line without its number.
    pub(crate) fn take(&mut self, line: &[u8]) -> Result<Option<CheckLine>, Stop>
        ensures { Stopping result (λ q. Takes (desk_of self.old) line.now q (desk_of self.new)) }
    {
        let card = read(line, self.is_open())?;
        self.perform(card)
    }
}

// An empty book by the pile that the numbers name.
fn opened(heap: Global, numbers: PileNumbers) -> Result<Book<Pile>, Stop>
    ensures { Opening numbers result }
{
    let pile = Pile::of(numbers.edition, numbers.divisor, numbers.can)?;
    // Every pile is usable, which is a law proved in layers: so nothing but memory can be wanting.
    Book::new(heap, pile).map_err(|_| Stop::Memory)
}

// What an open book makes of a card.
fn turn(book: &mut Book<Pile>, card: Card) -> Result<Option<CheckLine>, Fault>
    ensures { Performs (desk_with (Some book.old)) card result (desk_with (Some book.new)) }
{
    match card {
        Card::Pile(_) => return Err(CardFault::NoWord.into()),
        Card::Joint { joint, figures } => book.enter(joint, figures)?,
        Card::Brace {
            joint,
            brace,
            figures,
        } => book.add(joint, brace, figures)?,
        Card::Force {
            joint,
            brace,
            figures,
        } => book.load(joint, brace, figures)?,
        Card::Check { joint, brace } => {
            let verdict = book.check(joint, brace)?;
            return Ok(Some(CheckLine {
                joint,
                brace,
                verdict,
            }));
        }
    }
    Ok(None)
}
