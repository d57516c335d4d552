// Performs a list of calls on a book.
ghost use Rattle.std.specs.Prelude.{◌≡◌, MatchResult};
ghost use Rattle.book.specs.Openings.{Closed};
ghost use Rattle.book.specs.Runs.{Performed, Ran};

use crate::book::Book;
use crate::calls::{Answer, Call};
use crate::opening::{Obstacle, Unopened};
use crate::ran::Run;
use editions::edition::Edition;
use ledger::refusal::Refusal;
use std::alloc::{AllocError, Global};

// The answers to the calls, in their order. Room for all of them is taken before the first call, so that a want of memory leaves
// the book as it was.
pub fn perform<E: Edition>(
    heap: Global,
    book: &mut Book<E>,
    calls: &[Call],
) -> Result<Vec<Result<Answer, Refusal>>, AllocError>
    ensures { MatchResult result (λ v. Performed E.meaning book.old calls.now v.items book.new) (λ _. book.new ≡ book.old) }
{
    let mut answers = Vec::with_capacity(heap, calls.len())?;
    for call in calls {
        answers.push_reserved(book.call(*call));
    }
    Ok(answers)
}

// The whole promise: a new book by any edition, and any calls on it.
#[tactic(auto, using(crate::proofs::Performing::ran))]
pub fn run<E: Edition>(heap: Global, edition: E, calls: &[Call]) -> Result<Run<E>, Unopened<E>>
    ensures { MatchResult result (λ x. Ran E.meaning edition calls.now x.answers.items x.book) (Closed E.meaning edition) }
{
    let mut book = Book::new(heap, edition)?;
    // Not by map_err: its closure would take the book, which the run hands out.
    let Ok(answers) = perform(heap, &mut book, calls) else {
        return Err(Unopened {
            edition: book.edition,
            why: Obstacle::Memory,
        });
    };
    Ok(Run { book, answers })
}
