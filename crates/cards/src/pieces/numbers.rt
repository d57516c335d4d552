// Reads the numbers that fields write, one after the other.
ghost use Rattle.std.specs.Prelude.{◌≡◌, ◌+◌, ◌<◌, ◌≤◌, length, Ok, Err, OnOk, MatchResult};
ghost use Rattle.cards.specs.Readers.{left, seen};
ghost use Rattle.cards.specs.Cards.{Numbers, numbers_in};

use super::Pieces;
use crate::card::NumberFault;
use crate::numbers::number;

impl Pieces<'_> {
    // The number of the next field. Where no field is left there is none. Inlined, as most of a deck's time goes into numbers.
    #[inline(always)]
    fn number(&mut self) -> Result<i64, NumberFault>
        requires few { seen self.old < 255 }
        ensures count { OnOk result (seen self.new ≡ seen self.old + 1) }
        ensures number { Numbers (seen self.old + 1) (left self.old) result (left self.new) }
    {
        let field = self.count as u8 + 1;
        self.next()
            .and_then(|piece| number(piece.bytes))
            .ok_or(NumberFault { field })
    }

    // The numbers of the next fields.
    pub(crate) fn numbers<const N: usize>(&mut self) -> Result<[i64; N], NumberFault>
        requires few { seen self.old + N ≤ 255 }
        ensures { length (left self.old) ≡ N → MatchResult result (λ v. numbers_in (seen self.old + 1) (left self.old) ≡ Ok v) (λ f. numbers_in (seen self.old + 1) (left self.old) ≡ Err f) }
    {
        let mut values = [0; N];
        for value in values.iter_mut() {
            *value = self.number()?;
        }
        Ok(values)
    }
}
