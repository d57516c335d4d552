// Reads a card from a line.
ghost use Rattle.std.specs.Prelude.{◌≡◌, ◌+◌, length, Ok};
ghost use Rattle.cards.specs.declared.card.Card.{Card as ACard};
ghost use Rattle.cards.specs.Readers.{left, seen};
ghost use Rattle.cards.specs.Words.{count as fields_with_word};
ghost use Rattle.cards.specs.Cards.{numbers_in, by_numbers, card_of};
ghost use Rattle.cards.specs.CardTexts.{card_text, Readable};

use crate::card::{Card, CardFault, NumberFault, PileNumbers};
use crate::pieces::Pieces;
use crate::pieces::parting::count_fields;
use crate::word::{Word, placed_word};
use records::limits::{BraceFigures, ChordFigures, RatioFigures};
use verdicts::forces::ForceFigures;

impl Pieces<'_> {
    // The card of a word with the numbers of the fields behind it.
    // They come as one array and not by a `?` in each field of the struct: that was tried, and the proof of eleven such steps
    // does not close.
    fn card(&mut self, word: Word) -> Result<Card, CardFault>
        requires { seen self.old ≡ 1 }
        ensures { length (left self.old) + 1 ≡ fields_with_word word → result ≡ by_numbers word (numbers_in 2 (left self.old)) }
    {
        match word {
            Word::Pile => {
                let [edition, divisor, can] = self.numbers::<3>()?;
                Ok(Card::Pile(PileNumbers {
                    edition,
                    divisor,
                    can,
                }))
            }
            Word::Joint => {
                let [joint, diameter, wall, nominal, fy] = self.numbers::<5>()?;
                Ok(Card::Joint {
                    joint,
                    figures: ChordFigures {
                        diameter,
                        wall,
                        nominal,
                        fy,
                    },
                })
            }
            Word::Brace => {
                let [
                    joint,
                    number,
                    brace,
                    thickness,
                    fyb,
                    sine,
                    gap,
                    length,
                    k,
                    y,
                    x,
                ] = self.numbers::<11>()?;
                Ok(Card::Brace {
                    joint,
                    brace: number,
                    figures: BraceFigures {
                        brace,
                        thickness,
                        fyb,
                        sine,
                        gap,
                        length,
                        k,
                        y,
                        x,
                    },
                })
            }
            Word::Force => {
                let [joint, brace, n, my, mz, p, mi, mo] = self.numbers::<8>()?;
                Ok(Card::Force {
                    joint,
                    brace,
                    figures: ForceFigures {
                        n,
                        my,
                        mz,
                        ratios: RatioFigures { p, mi, mo },
                    },
                })
            }
            Word::Check => {
                let [joint, brace] = self.numbers::<2>()?;
                Ok(Card::Check { joint, brace })
            }
        }
    }
}

// The card of a line, or its first fault.
fn parse(line: &[u8], ready: bool) -> Result<Card, CardFault>
    ensures { result ≡ card_of ready line.now }
{
    if line.len() > 120 {
        return Err(CardFault::TooLong);
    }
    let mut fields = Pieces::fields(line);
    // By `let .. else` and not by `ok_or` and `?`: in one step and in two, that was tried, and the proof did not close.
    let Some(first) = fields.next() else {
        return Err(CardFault::NoWord);
    };
    let Some(word) = placed_word(first.bytes, ready) else {
        return Err(CardFault::NoWord);
    };
    let count = count_fields(line);
    if count != word.count() {
        return Err(CardFault::WrongCount(count as u8));
    }
    fields.card(word)
}

// The card of a line, or its first fault. A line is accepted exactly where it is the text of a card that may stand there.
// It only hands on: `parse` makes the one computed promise, and the others are drawn from it here.
pub fn read(line: &[u8], ready: bool) -> Result<Card, CardFault>
    ensures is { result ≡ card_of ready line.now }
    ensures written { (c : ACard) → result ≡ Ok c → line.now ≡ card_text c }
    ensures accepted { (c : ACard) → Readable ready c → line.now ≡ card_text c → result ≡ Ok c }
{
    parse(line, ready)
}
