// A reader of the pieces of lent bytes.
ghost use Rattle.std.specs.Prelude.{◌+◌, ◌≤◌, length};
ghost use Rattle.cards.specs.Pieces.{pieces_from};

pub mod numbers;
pub mod parting;

// The mark that parts them, and whether a last piece stands behind the last mark even if it is empty; where the next piece begins,
// which is past the end after the last one, and how many came. At most one piece more is left than there are bytes in all.
#[derive(Drop)]
pub struct Pieces<'a> {
    bytes: &'a [u8],
    mark: u8,
    last: bool,
    at: usize,
    count: usize,
    ghost within: { at ≤ length bytes.now + 1 },
    ghost counted: { count ≤ at },
    ghost few: { length (pieces_from mark last bytes.now at) ≤ length bytes.now + 1 },
}
