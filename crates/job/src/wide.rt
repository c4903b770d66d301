// A word as an index.
ghost use Rattle.std.specs.Prelude.{◌≡◌};

pub fn wide(word: u32) -> usize
    ensures { result ≡ word }
{
    word as usize
}
