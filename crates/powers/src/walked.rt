use crate::ends::Ends;

// After j digits of an exponent, which make the number k: the base to the power of 1 / 2^j, and of k / 2^j.
#[derive(Clone, Copy)]
pub struct Walked {
    pub root: Ends,
    pub product: Ends,
}
