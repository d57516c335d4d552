// A piece of lent bytes, and where it stands: a line of an input, or a field of a line.

// Its bytes without the mark behind it, the place of the first among all, and its number from 1 on.
#[derive(Clone, Copy)]
pub struct Piece<'a> {
    pub bytes: &'a [u8],
    pub offset: usize,
    pub number: usize,
}
