// Hands out one piece after the other.
ghost use Rattle.std.specs.Prelude.{◌≡◌, ℕ, ◌<◌, ◌≤◌, true, false, length, ◌≢◌, slice_index};
ghost use Rattle.std.specs.Iterator.{at_most};
ghost use Rattle.cards.specs.Pieces.{pieces_from, lines_of, fields_of};
ghost use Rattle.cards.specs.Readers.{Begins, left, Steps};

use super::Pieces;
use crate::piece::Piece;

// The index of the first mark, or the length where there is none.
pub fn until(bytes: &[u8], mark: u8) -> usize
    ensures within { result ≤ length bytes.now }
    ensures before { (k : ℕ) → k < result → slice_index bytes.now k ≢ mark }
    ensures found { result < length bytes.now → slice_index bytes.now result ≡ mark }
{
    bytes.iter().position(|b| *b == mark).unwrap_or(bytes.len())
}

impl<'a> Pieces<'a> {
    // The lines of an input: a byte 10 ends each.
    pub fn lines(input: &'a [u8]) -> Pieces<'a>
        ensures { Begins result 10 false input.now (lines_of input.now) }
    {
        Pieces::parted(input, b'\n', false)
    }

    // The fields of a line: a comma parts them.
    pub fn fields(line: &'a [u8]) -> Pieces<'a>
        ensures { Begins result 44 true line.now (fields_of line.now) }
    {
        Pieces::parted(line, b',', true)
    }

    fn parted(bytes: &'a [u8], mark: u8, last: bool) -> Pieces<'a>
        ensures { Begins result mark last bytes.now (pieces_from mark last bytes.now 0) }
    {
        Pieces {
            bytes,
            mark,
            last,
            at: 0,
            count: 0,
        }
    }
}

impl<'a> Iterator for Pieces<'a> {
    type Item = Piece<'a>;

    ghost next_gives = { λ c r d. Steps c r d };

    ghost remaining = { λ c. at_most (length (left c)) };

    #[tactic(auto, using(crate::proofs::Cuts::few_from))]
    fn next(&mut self) -> Option<Piece<'a>> {
        let rest = self.bytes.get(self.at..)?;
        if rest.is_empty() && !self.last {
            return None;
        }
        let n = until(rest, self.mark);
        let offset = self.at;
        self.at += n + 1;
        // The places and the numbers are kept by hand, by a rule of the project: a caller can point at what was refused.
        self.count += 1;
        Some(Piece {
            bytes: &rest[..n],
            offset,
            number: self.count,
        })
    }
}

// How many fields a line has.
pub fn count_fields(line: &[u8]) -> usize
    ensures { result ≡ length (fields_of line.now) }
{
    Pieces::fields(line).count()
}
