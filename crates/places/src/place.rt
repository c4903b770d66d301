// Where a new record goes.
ghost use Rattle.std.specs.Prelude.{true, false, ◌≡◌, ℕ, ◌+◌, ◌-◌, ◌%◌, ◌<◌, length, IfSome};
ghost use Rattle.model.specs.Machine.FreePlace.{around};
ghost use Rattle.reach.specs.Marks.{next_free};

use job::wide::wide;
use model::record::Machine;

// "round from the end to 0"
fn around(size: usize, p: usize) -> usize
    requires { 0 < size }
    ensures value { result ≡ around size p }
    ensures upper_bound { result < size }
{
    if p < size { p } else { 0 }
}

// "A new record takes the next place not in use before the call, after the last one given".
fn next_of(marks: &[bool], last: u32) -> Option<usize>
    ensures value { result ≡ next_free (length marks.now) marks.now last }
    ensures upper_bound { IfSome result (λ p. p < length marks.now) }
{
    let mut p = wide(last) + 1;
    for _ in 0..marks.len() {
        let q = around(marks.len(), p);
        if !marks[q] {
            return Some(q);
        }
        p = q + 1;
    }
    None
}

// How far a place is from the first to be looked at, round from the end to 0; one in use is farther than any that is not. No branch: all
// are computed at once.
fn distance(used: bool, i: u8, first: u8) -> u8
    requires i_bound { i < 64 }
    requires first_bound { first < 64 }
    ensures in_use { used ≡ true → result ≡ 64 + (i + 64 - first) % 64 }
    ensures free { used ≡ false → result ≡ (i + 64 - first) % 64 }
{
    64 * used as u8 + (i + 64 - first) % 64
}

// The nearest place not in use. The loop looks at every place: in a nearly full table an early exit cannot be predicted.
fn nearest(marks: &[bool], first: u8) -> Option<usize>
    requires marks_len { length marks.now ≡ 64 }
    requires first_bound { first < 64 }
    ensures value { (last : ℕ) → first ≡ around 64 (last + 1) → result ≡ next_free 64 marks.now last }
    ensures upper_bound { IfSome result (λ p. p < 64) }
{
    let mut best: u8 = 64;
    for i in 0..64u8 {
        let d = distance(marks[i as usize], i, first);
        if d < best {
            best = d;
        }
    }
    if best == 64 {
        return None;
    }
    Some(((first + best) % 64) as usize)
}

// Two places are looked at by themselves: in most tables one of them is not in use.
pub fn next_token(marks: &[bool; Machine::TOKENS], last: u32) -> Option<usize>
    ensures value { result ≡ next_free 64 marks.now last }
    ensures upper_bound { IfSome result (λ p. p < 64) }
{
    // as a slice, so that its length is known
    let slice: &[bool] = marks;
    let first = around(Machine::TOKENS, wide(last) + 1);
    if !slice[first] {
        return Some(first);
    }
    let second = around(Machine::TOKENS, first + 1);
    if !slice[second] {
        return Some(second);
    }
    nearest(slice, first as u8)
}

pub fn next_cell(marks: &[bool; Machine::CELLS], last: u32) -> Option<usize>
    ensures value { result ≡ next_free 32 marks.now last }
    ensures upper_bound { IfSome result (λ p. p < 32) }
{
    next_of(marks, last)
}
