// The two parts of a signed figure, of which one is 0: how far it is above 0, and how far below.
ghost use Rattle.std.specs.Prelude.{◌≡◌};
ghost use borrow.Author.Differences.{up, down};

pub fn above(x: i64) -> u64
    ensures { result ≡ up x }
{
    x.max(0).unsigned_abs()
}

pub fn below(x: i64) -> u64
    ensures { result ≡ down x }
{
    x.min(0).unsigned_abs()
}
