// The ends of a strength, in millionths.
#[derive(Clone, Copy)]
pub struct Strength {
    pub low: u64,
    pub high: u64,
}
