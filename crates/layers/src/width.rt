// How wide a layer makes an edition.
ghost use Rattle.std.specs.Prelude.{◌≡◌, ◌+◌, min};

// 300 parts in a million more than the edition below, at most all of them.
pub fn widened(width: u64) -> u64
    ensures { result ≡ min (width + 300) 1000000 }
{
    width.min(999700) + 300
}
