// What an edition of the rules is.
ghost use Rattle.std.specs.Prelude.{◌≡◌};
ghost use Rattle.editions.specs.Meanings.{Meaning, Lawful, Tells};

use crate::strength::Strength;
use records::kind::Kind;
use records::ratios::Ratios;
use records::record::BraceRecord;

// An edition tells strengths. Its meaning says what they enclose, and its laws make the enclosure worth something.
pub trait Edition {
    ghost meaning: { Self → Meaning };

    // In parts in a million.
    fn width(&self) -> u64
        ensures { result ≡ (meaning self.now).width };

    // The least strength that it tells, in millionths.
    fn floor(&self) -> u64
        ensures { result ≡ (meaning self.now).floor };

    // The ends of a strength, or none where the chord is spent. The record, the ratios and the kind are three parameters and not
    // one struct: a record stands when a new force brings other ratios, and the kinds are asked one after the other.
    fn tell(&self, brace: &BraceRecord, ratios: Ratios, kind: Kind) -> Option<Strength>
        ensures { Tells (meaning self.now) brace.now ratios kind result };

    ghost lawful: { (e : Self) → Lawful (meaning e) };
}
