// What is wrong with the numbers that name a pile.
ghost use Rattle.std.specs.Prelude.{◌≡◌};
ghost use Rattle.layers.specs.PileRefusals.{pile_number, pile_field};

#[derive(Clone, Copy)]
pub enum PileFault {
    Edition,
    Divisor,
    Can,
}

impl PileFault {
    // The number of the refusal.
    pub fn number(self) -> u8
        ensures { result ≡ pile_number self }
    {
        7
    }

    // The field on the card, its word being 1.
    pub fn field(self) -> u8
        ensures { result ≡ pile_field self }
    {
        match self {
            PileFault::Edition => 2,
            PileFault::Divisor => 3,
            PileFault::Can => 4,
        }
    }
}
