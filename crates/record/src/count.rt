// The counts of a record: outside calls made, and the places last given to a token and to a cell; and its clock.
ghost use Rattle.std.specs.Prelude.{◌≡◌};
ghost use Rattle.model.specs.Machine.Update.{with_counts, with_clock};
ghost use Rattle.model.specs.declared.record.Machine.{Machine};
ghost use Rattle.record.specs.Holds.{Codes, Holds};

use crate::layout::{CALL_COUNT, CLOCK, LAST_CELL, LAST_TOKEN};
use model::record::Machine;

pub fn calls_made(w: &[u32; Machine::WORDS]) -> u32
    ensures { (m : Machine) → Codes w.now m → result ≡ m.calls }
{
    w[CALL_COUNT]
}

pub fn last_token(w: &[u32; Machine::WORDS]) -> u32
    ensures { (m : Machine) → Codes w.now m → result ≡ m.lasttoken }
{
    w[LAST_TOKEN]
}

pub fn last_cell(w: &[u32; Machine::WORDS]) -> u32
    ensures { (m : Machine) → Codes w.now m → result ≡ m.lastcell }
{
    w[LAST_CELL]
}

pub fn set_calls_made(w: &mut [u32; Machine::WORDS], n: u32)
    ensures { (m : Machine) → Holds w.old m → Holds w.new (with_counts n m.lasttoken m.lastcell m) }
{
    w[CALL_COUNT] = n;
}

pub fn set_last_token(w: &mut [u32; Machine::WORDS], p: u32)
    ensures { (m : Machine) → Holds w.old m → Holds w.new (with_counts m.calls p m.lastcell m) }
{
    w[LAST_TOKEN] = p;
}

pub fn set_last_cell(w: &mut [u32; Machine::WORDS], c: u32)
    ensures { (m : Machine) → Holds w.old m → Holds w.new (with_counts m.calls m.lasttoken c m) }
{
    w[LAST_CELL] = c;
}

pub fn clock(w: &[u32; Machine::WORDS]) -> u32
    ensures { (m : Machine) → Codes w.now m → result ≡ m.clock }
{
    w[CLOCK]
}

pub fn set_clock(w: &mut [u32; Machine::WORDS], time: u32)
    ensures { (m : Machine) → Holds w.old m → Holds w.new (with_clock time m) }
{
    w[CLOCK] = time;
}
