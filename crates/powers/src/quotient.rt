ghost use Rattle.std.specs.Prelude.{◌<◌};

// A quotient of two whole numbers.
#[derive(Clone, Copy)]
pub struct Quotient {
    pub num: u64,
    pub den: u64,
    ghost whole: { 0 < den },
}
