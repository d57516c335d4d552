// The chord's axial and bending ratios, in ten-thousandths of its capacities.
ghost use Rattle.std.specs.Prelude.{◌≤◌};
ghost use Rattle.records.specs.Signs.{size};

// p is positive in tension, and mi where it compresses the footprint.
#[derive(Clone, Copy)]
pub struct Ratios {
    pub p: i64,
    pub mi: i64,
    pub mo: i64,
    ghost within: { (size p ≤ 10000) × (size mi ≤ 10000) × (size mo ≤ 10000) },
}
