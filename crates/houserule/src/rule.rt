ghost use Rattle.std.specs.Prelude.{◌≤◌};

// The strength that the owner takes for every kind, in millionths.
#[derive(Clone, Copy)]
pub struct HouseRule {
    pub strength: u64,
    ghost firm: { 100000 ≤ strength },
    ghost top: { strength ≤ 2000000000 },
}
