// The force in a brace, in newtons and newton-metres, and the ratios of its chord.
ghost use Rattle.std.specs.Prelude.{◌≤◌, unsigned_abs};

use records::ratios::Ratios;

// n is positive in tension; my is the in-plane and mz the out-of-plane moment.
#[derive(Clone, Copy)]
pub struct Force {
    pub n: i64,
    pub my: i64,
    pub mz: i64,
    pub ratios: Ratios,
    ghost axially: { unsigned_abs n ≤ 100000000 },
    ghost inplane: { unsigned_abs my ≤ 100000000 },
    ghost outplane: { unsigned_abs mz ≤ 100000000 },
}
