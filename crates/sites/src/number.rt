// A word as a signed number, and back.
ghost use Rattle.std.specs.Prelude.{◌≡◌};
ghost use Rattle.job.specs.Number as Number;

// "signed 32-bit"
#[tactic(auto, using(crate::proofs::NumberBits::signed_cast))]
pub fn signed(word: u32) -> i32
    ensures { result ≡ Number.signed word }
{
    word.cast_signed()
}

// A signed number's 32 bits.
#[tactic(auto, using(crate::proofs::NumberBits::unsigned_cast))]
pub fn unsigned(v: i32) -> u32
    ensures { result ≡ Number.unsigned v }
{
    v.cast_unsigned()
}
