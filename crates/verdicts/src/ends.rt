// Ends that are known to be close. Three types and not one of two ends: each has its own unit, and its own bounds, which its
// values keep.
ghost use Rattle.std.specs.Prelude.{ℕ, ◌+◌, ◌*◌, ◌<◌, ◌≤◌};

// A strength, in millionths.
#[derive(Clone, Copy)]
pub struct Known {
    pub low: u64,
    pub high: u64,
    ghost firm: { 10000 ≤ low },
    ghost ordered: { low ≤ high },
    ghost top: { high ≤ 2000000000 },
    ghost near: { high * 1000000 ≤ low * 1000700 },
}

// What a brace resists, up to the factor that all its resistances share.
#[derive(Clone, Copy)]
pub struct Resistance {
    pub low: u128,
    pub high: u128,
    ghost firm: { 100000000000 ≤ low },
    ghost ordered: { low ≤ high },
    ghost top: { high ≤ 100000000000000000000000 },
    ghost near: { high * 1000000 ≤ low * 1000700 },
}

// A ratio, in millionths.
#[derive(Clone, Copy)]
pub struct Ratio {
    pub low: u64,
    pub high: u64,
    ghost ordered: { low ≤ high },
    ghost near: { high * 1000000 ≤ low * 1000700 + 2000700 },
}

// The strengths of a brace, by class and by moment.
#[derive(Clone, Copy)]
pub struct Consulted {
    pub k: Known,
    pub y: Known,
    pub x: Known,
    pub inner: Known,
    pub outer: Known,
}
