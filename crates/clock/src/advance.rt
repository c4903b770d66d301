// "A clock move adds those now due, with value 0, by due time, then by order of call": one by one, the earliest first.
ghost use Rattle.std.specs.Prelude.{◌≡◌, true, ◌<◌, IfSome};
ghost use Rattle.job.specs.Node.{Dag};
ghost use Rattle.model.specs.Machine.Clock.{after_advance, takes_time};
ghost use Rattle.model.specs.Machine.Limits.{paper};
ghost use Rattle.model.specs.Machine.Rules.{rules_hold};
ghost use Rattle.model.specs.declared.record.Machine.{Machine};
ghost use Rattle.record.specs.Holds.{Codes, Holds};
ghost use Rattle.clock.specs.WakeOneByOne.{ClockFacts, Earliest, due_at, wake_at, all_woken};

use job::wide::wide;
use model::record::Machine;
use record::layout::{LAST_TIME, READY_STATE};
use record::order::{CallOrder, Queue};
use record::{count, order, token};

// "15, the clock would go back or leave its range"
pub fn takes_time(w: &[u32; Machine::WORDS], time: u32) -> bool
    ensures { (m : Machine) → Codes w.now m → result ≡ takes_time m time }
{
    let clock = count::clock(w);
    clock <= time && time <= LAST_TIME
}

// The due time of the token that the order of call names at an index.
fn due_time(w: &[u32; Machine::WORDS], i: usize) -> u32
    requires { i < 64 }
    ensures { (m : Machine) → Holds w.now m → ClockFacts m → i < m.timed → result ≡ due_at m i }
{
    let p = wide(order::place_at::<CallOrder>(w, i));
    if p < Machine::TOKENS {
        return token::state_number(w, p);
    }
    0
}

// Where the order of call names the first of those due earliest, by a time.
fn earliest(w: &[u32; Machine::WORDS], time: u32) -> Option<usize>
    ensures place { IfSome result (λ i. i < 64) }
    ensures first { (m : Machine) → Holds w.now m → ClockFacts m → Earliest (due_at m) m.timed time result }
{
    let timed = wide(order::count::<CallOrder>(w));
    if Machine::TOKENS < timed {
        return None;
    }
    let mut found = None;
    let mut bound = wide(time) + 1;
    for i in 0..timed {
        let due = wide(due_time(w, i));
        if due < bound {
            found = Some(i);
            bound = due;
        }
    }
    found
}

// The token that is named at an index leaves the order of call and is ready, with value 0.
fn wake_at(w: &mut [u32; Machine::WORDS], i: usize)
    requires { i < 64 }
    ensures { (m : Machine) → Holds w.old m → ClockFacts m → i < m.timed → Holds w.new (wake_at i m) }
{
    let name = order::place_at::<CallOrder>(w, i);
    let p = wide(name);
    if p < Machine::TOKENS {
        order::leave::<CallOrder>(w, i);
        token::set_value(w, p, 1, 0);
        token::set_state(w, p, READY_STATE, 0);
        order::join::<Queue>(w, name);
    }
}

// All that are due by a time, each in its turn. Where none is due, that is one look at the order of call.
fn wake_due(w: &mut [u32; Machine::WORDS], time: u32)
    ensures { (m : Machine) → Holds w.old m → ClockFacts m → Holds w.new (all_woken m time) }
{
    for _ in 0..order::count::<CallOrder>(w) {
        let Some(i) = earliest(w, time) else {
            return;
        };
        wake_at(w, i);
    }
}

// Those now due wake, and the clock shows the new time.
pub fn move_clock(w: &mut [u32; Machine::WORDS], time: u32)
    ensures { (d : Dag) (m : Machine) → Holds w.old m → rules_hold paper d m ≡ true
        → Holds w.new (after_advance m time) }
{
    wake_due(w, time);
    count::set_clock(w, time);
}
