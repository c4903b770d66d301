// The queue, the wait order and the order of call: the first names of 64 words each, and how many they are. What stands behind them is 0.
ghost use Rattle.std.specs.Prelude.{◌≡◌, refl, false, ℕ, ◌<◌, get_or};
ghost use Rattle.job.specs.Test.{select, without};
ghost use Rattle.model.specs.declared.record.Machine.{Machine};
ghost use Rattle.record.specs.Holds.{Codes, Holds};
ghost use Rattle.record.specs.OrderWords.{Which, queue, waits, timers, first_at, count_at};
ghost use Rattle.record.specs.OrderWords.{names_of, array_of, count_of, with_names, joined};

use crate::layout::{
    QUEUE_LENGTH, QUEUE_START, TIMERS_LENGTH, TIMERS_START, WAITS_LENGTH, WAITS_START,
};
use job::wide::wide;
use model::record::Machine;
use orders::names::{left_out, retained};

// An order names the tokens in a state, each once.
pub trait Order {
    // Where its names begin among the words, and where their number stands.
    const START: usize;

    const LENGTH: usize;

    ghost START: { ℕ };

    ghost LENGTH: { ℕ };

    ghost which: { Which };

    ghost starts: { START ≡ first_at which };

    ghost counted: { LENGTH ≡ count_at which };
}

// The ready tokens.
pub struct Queue;

impl Order for Queue {
    const START: usize = QUEUE_START;

    const LENGTH: usize = QUEUE_LENGTH;

    ghost START = { 1664 };

    ghost LENGTH = { 1792 };

    ghost which = { queue };

    ghost starts = { refl };

    ghost counted = { refl };
}

// The waiting tokens, longest wait first.
pub struct WaitOrder;

impl Order for WaitOrder {
    const START: usize = WAITS_START;

    const LENGTH: usize = WAITS_LENGTH;

    ghost START = { 1728 };

    ghost LENGTH = { 1793 };

    ghost which = { waits };

    ghost starts = { refl };

    ghost counted = { refl };
}

// The tokens that are due later, first call first.
pub struct CallOrder;

impl Order for CallOrder {
    const START: usize = TIMERS_START;

    const LENGTH: usize = TIMERS_LENGTH;

    ghost START = { 1797 };

    ghost LENGTH = { 1861 };

    ghost which = { timers };

    ghost starts = { refl };

    ghost counted = { refl };
}

// How many names there are.
pub fn count<O: Order>(w: &[u32; Machine::WORDS]) -> u32
    ensures { (m : Machine) → Codes w.now m → result ≡ count_of O.which m }
{
    w[O::LENGTH]
}

// The place that is named at an index.
pub fn place_at<O: Order>(w: &[u32; Machine::WORDS], i: usize) -> u32
    requires { i < 64 }
    ensures { (m : Machine) → Codes w.now m → result ≡ get_or (array_of O.which m) i 0 }
{
    w[O::START + i]
}

// "A ready token goes to the back of the queue." So does one that waits or is due later, of its order. A token is named once, so there is
// room; a full order stays as it is.
pub fn join<O: Order>(w: &mut [u32; Machine::WORDS], p: u32)
    ensures { (m : Machine) → Holds w.old m → count_of O.which m < 64 → Holds w.new (joined O.which p m) }
{
    let length = O::LENGTH;
    let n = wide(w[length]);
    if n < Machine::TOKENS {
        w[O::START + n] = p;
        w[length] = n as u32 + 1;
    }
}

// The name at an index leaves.
pub fn leave<O: Order>(w: &mut [u32; Machine::WORDS], index: usize)
    ensures { (m : Machine) → Holds w.old m → index < count_of O.which m
        → Holds w.new (with_names O.which (without index (names_of O.which m)) m) }
{
    let length = O::LENGTH;
    let count = wide(w[length]);
    if count <= Machine::TOKENS && index < count {
        let start = O::START;
        left_out(&mut w[start..start + count], index, 0);
        w[length] = count as u32 - 1;
    }
}

// The name at an index leaves and another goes to the back: as `leave` and then `join`, but the number of names is not written.
pub fn replace<O: Order>(w: &mut [u32; Machine::WORDS], index: usize, p: u32)
    ensures { (m : Machine) → Holds w.old m → index < count_of O.which m
        → Holds w.new (joined O.which p (with_names O.which (without index (names_of O.which m)) m)) }
{
    let count = wide(w[O::LENGTH]);
    if count <= Machine::TOKENS && index < count {
        let start = O::START;
        left_out(&mut w[start..start + count], index, p);
    }
}

// The names that are marked stay.
pub fn retain<O: Order>(w: &mut [u32; Machine::WORDS], keep: &[bool; Machine::TOKENS])
    ensures { (m : Machine) → Holds w.old m
        → Holds w.new (with_names O.which (select (λ (p : ℕ). get_or keep.now p false) (names_of O.which m)) m) }
{
    let length = O::LENGTH;
    let count = wide(w[length]);
    if count <= Machine::TOKENS {
        let start = O::START;
        let n = retained(&mut w[start..start + count], keep);
        w[length] = n as u32;
    }
}
