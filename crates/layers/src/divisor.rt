ghost use Rattle.std.specs.Prelude.{◌≤◌};

// An edition with every strength divided by c hundredths.
#[derive(Drop)]
pub struct Divisor<E> {
    pub below: E,
    pub c: u64,
    ghost fair: { (100 ≤ c) × (c ≤ 200) },
}
