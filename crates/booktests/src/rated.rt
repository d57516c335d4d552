ghost use Rattle.std.specs.Prelude.{◌≤◌};

// An edition whose width and floor are chosen, to open books on both sides of the limits of both. It tells a tenth of every strength.
#[derive(Clone, Copy)]
pub struct Rated {
    pub width: u64,
    pub floor: u64,
    ghost low: { floor ≤ 100000 },
}
