// A frame whose token has taken its links.
ghost use Rattle.std.specs.Prelude.{◌≡◌, false, ℕ, ◌<◌};
ghost use Rattle.model.specs.declared.record.Machine.{Machine};
ghost use Rattle.record.specs.Holds.{Codes, Holds};
ghost use Rattle.acts.specs.SharedFrames.{NamesAsCaller};
ghost use Rattle.returns.specs.Frame.{IsCaller, AfterRelease};

use model::record::Machine;
use record::token::{blank, caller};

// Does a token name the one at f as its caller?
fn is_caller(w: &[u32; Machine::WORDS], f: usize) -> bool
    requires { f < 64 }
    ensures { (m : Machine) → Codes w.now m → IsCaller m f result }
{
    let number = f as u32 + 1;
    (0..Machine::TOKENS).any(|i| caller(w, i) == number)
}

// The same, looked for only where a token may: where the frame is shared.
fn is_still_caller(w: &[u32; Machine::WORDS], f: usize, shared: bool) -> bool
    requires { f < 64 }
    ensures { (m : Machine) → Codes w.now m → (shared ≡ false → (i : ℕ) → NamesAsCaller m f i → ⊥) → IsCaller m f result }
{
    if shared {
        return is_caller(w, f);
    }
    false
}

// The frame at f goes out of use, unless a token still names it.
pub(crate) fn release(
    w: &mut [u32; Machine::WORDS],
    tokens: &mut [bool; Machine::TOKENS],
    f: usize,
    shared: bool,
)
    requires { f < 64 }
    ensures { (o : Machine) → Holds w.old o → (shared ≡ false → (i : ℕ) → NamesAsCaller o f i → ⊥)
        → AfterRelease o f w.new tokens.old tokens.new }
{
    if is_still_caller(w, f, shared) {
        return;
    }
    blank(w, f);
    tokens[f] = false;
}
