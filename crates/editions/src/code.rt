// Codes of practice. Each of them is an edition.
ghost use Rattle.powers.specs.Formulas.{Formula};
ghost use Rattle.records.specs.declared.record.BraceRecord.{BraceRecord};
ghost use Rattle.records.specs.declared.ratios.Ratios.{Ratios};
ghost use Rattle.records.specs.declared.kind.Kind.{Kind};
ghost use Rattle.editions.specs.Factors.{Factor};
ghost use Rattle.editions.specs.Chords.{ChordFactor, ChordTold};
ghost use Rattle.editions.specs.Meanings.{bare, Tells, Fine};
ghost use Rattle.editions.specs.Telling.{bare_lawful};

use crate::edition::Edition;
use crate::strength::Strength;
use crate::told::millionths;
use powers::ends::Ends;
use powers::ops::exact;
use powers::quotient::Quotient;
use records::kind::Kind;
use records::ratios::Ratios;
use records::record::BraceRecord;

// A code of practice is a table of factors and one of chord factors: a strength is the product of the two.
pub trait Code {
    ghost factors: { BraceRecord → Kind → Formula };

    ghost chords: { BraceRecord → Ratios → Kind → ChordFactor };

    // The factor of a kind.
    fn factor(&self, brace: &BraceRecord, kind: Kind) -> Ends
        ensures { Factor result (factors brace.now kind) };

    // The chord's factor Qf, exact, or none where the chord is spent.
    fn chord_factor(&self, brace: &BraceRecord, ratios: Ratios, kind: Kind) -> Option<Quotient>
        ensures { ChordTold (chords brace.now ratios kind) result };
}

impl<C: Code> Edition for C {
    ghost meaning = { λ _. bare C.factors C.chords };

    ghost lawful = { λ _. bare_lawful C.factors C.chords };

    fn width(&self) -> u64 {
        100
    }

    fn floor(&self) -> u64 {
        100000
    }

    fn tell(&self, brace: &BraceRecord, ratios: Ratios, kind: Kind) -> Option<Strength>
        ensures tells { Tells (bare C.factors C.chords) brace.now ratios kind result }
        ensures fine { Fine result }
    {
        let left = self.chord_factor(brace, ratios, kind)?;
        let factor = self.factor(brace, kind);
        let strength = factor * exact(left);
        Some(millionths(strength))
    }
}
