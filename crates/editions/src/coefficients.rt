// The coefficients of the chord's factor, and the ratios that it takes, in parts without a sign.
ghost use Rattle.std.specs.Prelude.{◌+◌, ◌*◌, ◌≤◌};

// API's coefficients in tenths of 1 / over: C1 is `rise` less `fall`, C2 `close` and C3 `square`.
#[derive(Clone, Copy)]
pub struct Coefficients {
    pub over: u64,
    pub rise: u64,
    pub fall: u64,
    pub close: u64,
    pub square: u64,
    ghost some: { (1 ≤ over) × (over ≤ 4000) },
    ghost moderate: { (rise ≤ 3 * over) × (fall ≤ 2 * over) × (close ≤ 2 * over) × (square ≤ 8 * over) },
}

// ISO's factor w in thousandths, and its coefficients C1 and C2.
#[derive(Clone, Copy)]
pub struct Weights {
    pub w: u8,
    pub axial: u8,
    pub bending: u8,
}

// The positive and the negative parts of the ratios.
#[derive(Clone, Copy)]
pub struct Signs {
    pub tension: u64,
    pub compression: u64,
    pub closing: u64,
    pub opening: u64,
    pub side: u64,
    ghost within: { (tension + compression ≤ 10000) × (closing + opening ≤ 10000) × (side ≤ 10000) },
}
