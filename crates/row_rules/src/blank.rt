// "What is not in use is blank": a blank token's words are 0, and a blank cell has no parent and no value.
ghost use Rattle.std.specs.Prelude.{◌≡◌, true, ℕ, ◌<◌, ◌≤◌, drop};
ghost use Rattle.job.specs.Test.{for_all};
ghost use Rattle.model.specs.Machine.Blank.{token_at, cell_at, token_is_blank, cell_is_blank};
ghost use Rattle.model.specs.declared.record.Machine.{Machine};
ghost use Rattle.record.specs.Holds.{Codes};
ghost use Rattle.coded.specs.WordTests.{token_coded, cell_at_coded};

use model::record::Machine;
use orders::zero::all_zero;
use record::cell::{parent, value_kind};
use record::layout::{CELL_WORDS, CELLS_START, QUEUE_START, TOKEN_WORDS};

// Words that are all 0 are a token's.
pub fn token_is_blank(w: &[u32; Machine::WORDS], p: usize) -> bool
    requires { p < 64 }
    ensures { (result ≡ true → token_coded w.now p ≡ true)
        × ((m : Machine) → Codes w.now m → result ≡ token_is_blank (token_at m.tokens p)) }
{
    let at = TOKEN_WORDS * p;
    all_zero(&w[at..at + TOKEN_WORDS])
}

pub fn cell_is_blank(w: &[u32; Machine::WORDS], c: usize) -> bool
    requires { c < 32 }
    ensures { (m : Machine) → Codes w.now m → result ≡ cell_is_blank (cell_at m.cells c) }
{
    (parent(w, c) == 0) & (value_kind(w, c) == 0)
}

// All tokens from a place on: their words are tested together, row by row, without a branch.
pub fn tokens_are_blank(w: &[u32; Machine::WORDS], from: usize) -> bool
    requires { from ≤ 64 }
    ensures { (result ≡ true → (p : ℕ) → from ≤ p → p < 64 → token_coded w.now p ≡ true)
        × ((m : Machine) → Codes w.now m → result ≡ for_all token_is_blank (drop from m.tokens)) }
{
    let mut blank = true;
    for p in from..Machine::TOKENS {
        blank &= token_is_blank(w, p);
    }
    blank
}

// The same for cells.
pub fn cells_are_blank(w: &[u32; Machine::WORDS], from: usize) -> bool
    requires { from ≤ 32 }
    ensures { (result ≡ true → (c : ℕ) → from ≤ c → c < 32 → cell_at_coded w.now c ≡ true)
        × ((m : Machine) → Codes w.now m → result ≡ for_all cell_is_blank (drop from m.cells)) }
{
    all_zero(&w[CELLS_START + CELL_WORDS * from..QUEUE_START])
}
