// "The queue names each ready token once and nothing else"; "the wait order names each waiting token once"; so does the order of call those
// due later: how often each place is named.
ghost use Rattle.std.specs.Prelude.{◌≡◌, false, true, ℕ, ◌≤◌, ◌<◌, ◌-◌, MatchOption, length, get_or, ltb, eqb};
ghost use Rattle.job.specs.Test.{◌and◌, for_all, occurrences, once};
ghost use Rattle.model.specs.declared.record.Machine.{Machine};
ghost use Rattle.record.specs.Holds.{Codes};
ghost use Rattle.order_rules.specs.OrderCounts.{CountedOnce, each_from, unnamed};

use job::wide::wide;
use model::record::Machine;
use orders::zero::all_zero;
use record::layout::{DUE_STATE, READY_STATE, TOKEN_PLACE_COUNT, WAITING_STATE};
use record::order::{Order, count};

// How often each place stands among the names; nothing where one names no place of tokens.
fn counted(names: &[u32]) -> Option<[u8; Machine::TOKENS]>
    requires { length names.now ≤ 64 }
    ensures { MatchOption result (for_all (λ (p : ℕ). ltb p 64) names.now ≡ false) (λ counts.
        (for_all (λ (p : ℕ). ltb p 64) names.now ≡ true)
        × ((p : ℕ) → p < 64 → get_or counts p 0 ≡ occurrences p names.now)) }
{
    let mut counts = [0u8; Machine::TOKENS];
    for &name in names {
        if TOKEN_PLACE_COUNT <= name {
            return None;
        }
        counts[wide(name)] += 1;
    }
    Some(counts)
}

// How often an order names each place; nothing where it is none: names of places, and 0 behind the last one.
pub fn order_counts<O: Order>(w: &[u32; Machine::WORDS]) -> Option<[u8; Machine::TOKENS]>
    ensures { (m : Machine) → Codes w.now m → CountedOnce O.which m result }
{
    let n = wide(count::<O>(w));
    if Machine::TOKENS < n {
        return None;
    }
    let start = O::START;
    let counts = counted(&w[start..start + n])?;
    if all_zero(&w[start + n..start + Machine::TOKENS]) {
        Some(counts)
    } else {
        None
    }
}

// How often each order names each place.
#[derive(Drop)]
pub struct OrderCounts {
    pub queue: [u8; Machine::TOKENS],
    pub waits: [u8; Machine::TOKENS],
    pub timers: [u8; Machine::TOKENS],
}

// Is a place named so often by each of the orders as a token in that state asks?
pub fn counts_agree(kind: u32, queue: u8, waits: u8, timers: u8) -> bool
    ensures { result ≡ (eqb queue (once (eqb kind 1)) and eqb waits (once (eqb kind 2)) and eqb timers (once (eqb kind 4))) }
{
    (queue == u8::from(kind == READY_STATE))
        & (waits == u8::from(kind == WAITING_STATE))
        & (timers == u8::from(kind == DUE_STATE))
}

// Does no order name a place from this one on?
pub fn unnamed_from(counts: &OrderCounts, from: usize) -> bool
    requires { from ≤ 64 }
    ensures { result ≡ each_from (unnamed counts.now.queue counts.now.waits counts.now.timers) from (64 - from) }
{
    let mut ok = true;
    for i in from..Machine::TOKENS {
        ok = ok & (counts.queue[i] == 0) & (counts.waits[i] == 0) & (counts.timers[i] == 0);
    }
    ok
}
