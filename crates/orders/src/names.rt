// Names of an order, which stand at the front of its array.
ghost use Rattle.std.specs.Prelude.{◌≡◌, false, [], ◌∷◌, ◌++◌, ◌<◌, length, get_or};
ghost use Rattle.job.specs.Test.{without};
ghost use Rattle.orders.specs.NamesRetained.{Retained};

use job::wide::wide;
use std::mem;

// The name at an index is left out, and another word stands behind the last: from the back, each name goes one place to the front.
// (Most orders are short, and a loop from the front is made a call of `memmove`.)
pub fn left_out(names: &mut [u32], index: usize, last: u32)
    requires { index < length names.old }
    ensures { names.new ≡ without index names.old ++ (last ∷ []) }
{
    let mut carried = last;
    for i in (index..names.len()).rev() {
        carried = mem::replace(&mut names[i], carried);
    }
}

// Is a name's place marked?
pub fn is_marked(marks: &[bool], name: u32) -> bool
    ensures { result ≡ get_or marks.now name false }
{
    marks.get(wide(name)).copied().unwrap_or(false)
}

// The names that are marked come first, zeros behind them; and how many they are.
pub fn retained(names: &mut [u32], keep: &[bool]) -> usize
    ensures { Retained names.old keep.now names.new result }
{
    let mut n: usize = 0;
    for i in 0..names.len() {
        let name = mem::take(&mut names[i]);
        if is_marked(keep, name) {
            names[n] = name;
            n += 1;
        }
    }
    n
}
