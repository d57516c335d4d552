// Answers a whole input.
ghost use Rattle.std.specs.Prelude.{◌≡◌, IfOk, string_bytes, Option as Perhaps, Result as Answer};
ghost use Rattle.decks.specs.declared.fault.Fault.{Fault as LinesFault};
ghost use Rattle.decks.specs.declared.output.CheckLine.{CheckLine as ACheckLine};
ghost use Rattle.decks.specs.Sessions.{desk_of, Takes};
ghost use Rattle.decks.specs.Outputs.{answer_text};
ghost use Rattle.decks.specs.Responses.{Ends, Responds};

use crate::fault::Stop;
use crate::output::{LineFault, WorstLine};
use crate::session::Session;
use cards::piece::Piece;
use cards::pieces::Pieces;
use std::alloc::{AllocError, Global};

// What an input of more than 32,768 bytes is answered with.
pub const TOO_LONG: &str = "REFUSED,0,17,0\n";

impl Session {
    // What a line prints.
    fn answer(&mut self, line: Piece<'_>) -> Result<String, AllocError>
        ensures { IfOk result (λ s. (q : Answer (Perhaps ACheckLine) LinesFault) × Takes (desk_of self.old) line.entry.bytes.now q (desk_of self.new) × (string_bytes s ≡ answer_text line.entry.number q)) }
    {
        match self.take(line.bytes) {
            Ok(None) => Ok(String::new(self.heap)),
            Ok(Some(check)) => check.to_string(self.heap),
            Err(Stop::Refused(fault)) => {
                LineFault {
                    line: line.number,
                    fault,
                }
                .to_string(self.heap)
            }
            Err(Stop::Memory) => Err(AllocError),
        }
    }

    // The line that ends the output.
    #[tactic(auto, using(crate::proofs::Lines::zeros))]
    fn last(&self) -> Result<String, AllocError>
        ensures { IfOk result (λ s. Ends (desk_of self.now) (string_bytes s)) }
    {
        match &self.book {
            Some(book) => WorstLine::from(book.worst()).to_string(self.heap),
            None => WorstLine::NONE.to_string(self.heap),
        }
    }
}

// The whole output for an input.
pub fn respond(heap: Global, input: &[u8]) -> Result<String, AllocError>
    ensures { IfOk result (λ s. Responds input.now (string_bytes s)) }
{
    if input.len() > 32_768 {
        return String::from_str(heap, TOO_LONG);
    }
    let mut session = Session::new(heap);
    let mut out = String::new(heap);
    for line in Pieces::lines(input) {
        let text = session.answer(line)?;
        out.push_str(text.as_str())?;
    }
    let last = session.last()?;
    out.push_str(last.as_str())?;
    Ok(out)
}
