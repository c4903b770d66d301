// Words that are all 0.
ghost use Rattle.std.specs.Prelude.{◌≡◌, eqb};
ghost use Rattle.job.specs.Test.{for_all};

// Are the words all 0? Their bits are put together, so that nothing is tested word by word.
pub fn all_zero(words: &[u32]) -> bool
    ensures { result ≡ for_all (eqb 0) words.now }
{
    let mut bits = 0;
    for word in words {
        bits |= word;
    }
    bits == 0
}
