// The figures of a chord and of a brace, within their limits. Lengths are in millimetres, walls in tenths of a millimetre, yields
// in MPa.
ghost use Rattle.std.specs.Prelude.{◌≡◌, ◌+◌, ◌*◌, ◌≤◌};
ghost use Rattle.records.specs.Signs.{apart, lap};

#[derive(Clone, Copy)]
pub struct Chord {
    pub diameter: u64,
    pub wall: u64,
    pub nominal: u64,
    pub fy: u64,
    ghost size: { (200 ≤ diameter) × (diameter ≤ 4000) },
    ghost thick: { (60 ≤ wall) × (2 * wall ≤ diameter) × (diameter ≤ 10 * wall) },
    ghost thinned: { (wall ≤ 2 * nominal) × (nominal ≤ wall) },
    ghost strong: { (200 ≤ fy) × (fy ≤ 500) },
}

// The chord's nominal wall and the length of its can.
#[derive(Clone, Copy)]
pub struct CanFigures {
    pub nominal: u64,
    pub length: u64,
}

// How much of a brace's axial force is carried as K, Y and X, in thousandths.
#[derive(Clone, Copy)]
pub struct Shares {
    pub k: u64,
    pub y: u64,
    pub x: u64,
    ghost whole: { k + y + x ≡ 1000 },
}

// A brace with its chord's figures. The sine of its angle is in millionths, and a gap below 0 is an overlap.
// The chord's figures are fields here, and not a chord within: an edition's formulas read all of them side by side.
#[derive(Clone, Copy)]
pub struct BraceRecord {
    pub diameter: u64,
    pub wall: u64,
    pub fy: u64,
    pub brace: u64,
    pub thickness: u64,
    pub fyb: u64,
    pub sine: u64,
    pub gap: i64,
    pub can: CanFigures,
    pub shares: Shares,
    ghost size: { (200 ≤ diameter) × (diameter ≤ 4000) },
    ghost thick: { (60 ≤ wall) × (2 * wall ≤ diameter) × (diameter ≤ 10 * wall) },
    ghost thinned: { (wall ≤ 2 * can.nominal) × (can.nominal ≤ wall) },
    ghost strong: { (200 ≤ fy) × (fy ≤ 500) × (200 ≤ fyb) × (fyb ≤ 500) },
    ghost slim: { (diameter ≤ 5 * brace) × (brace ≤ diameter) },
    ghost walls: { (wall ≤ 4 * thickness) × (thickness ≤ 2 * wall) },
    ghost steep: { (500000 ≤ sine) × (sine ≤ 1000000) },
    ghost spaced: { (5 * lap gap ≤ 3 * diameter) × (apart gap ≤ 4000) },
    ghost canned: { (1 ≤ can.length) × (can.length ≤ 20000) },
}
