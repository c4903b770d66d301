// "Nodes, slots, tokens and cells named lie in their ranges"; clock and due times lie in theirs. Any 32 bits are a signed 32-bit value.
ghost use Rattle.std.specs.Prelude.{◌≡◌, ◌<◌, leb, ltb};
ghost use Rattle.job.specs.Site.{last_time};
ghost use Rattle.job.specs.Test.{◌and◌, for_all};
ghost use Rattle.model.specs.Machine.Blank.{token_at};
ghost use Rattle.model.specs.Machine.Rules.{place_in_range, slot_in_range, state_in_range, due_in_range};
ghost use Rattle.model.specs.declared.record.Machine.{Machine};
ghost use Rattle.model.specs.declared.token.Slot.{Slot};
ghost use Rattle.model.specs.declared.token.State.{State};
ghost use Rattle.record.specs.Holds.{Codes};
ghost use Rattle.record.specs.Layout.{state_kind, state_number};
ghost use Rattle.row_rules.specs.ValuesFit.{ValuesFit};

use job::dag::CALL_LIMIT;
use model::record::Machine;
use record::count::{calls_made, clock, last_cell, last_token};
use record::layout::{
    CALLED_STATE, CELL_PLACE_COUNT, CELL_SLOT, DUE_STATE, LAST_TIME, TOKEN_PLACE_COUNT,
    WAITING_STATE,
};
use record::token::{bind, caller, cell, state, state_number};

// A token's bindings: cells below 32.
fn binds_in_range(w: &[u32; Machine::WORDS], p: usize) -> bool
    requires { p < 64 }
    ensures { (m : Machine) → ValuesFit w.now m
        → result ≡ for_all (slot_in_range 32) (token_at m.tokens p).binds }
{
    let mut ok = true;
    for x in 0..8 {
        let slot = bind(w, p, x);
        ok &= (slot.kind != CELL_SLOT) | (slot.number < CELL_PLACE_COUNT);
    }
    ok
}

// A waiting token's cell is below 32, an open handle below the call count, a due time above the clock and in the clock's range.
fn state_in_range(kind: u32, number: u32, calls: u32, now: u32) -> bool
    ensures { (s : State) → kind ≡ state_kind s → number ≡ state_number s → result ≡ (state_in_range 32 calls s and due_in_range now s) }
{
    match kind {
        WAITING_STATE => number < CELL_PLACE_COUNT,
        CALLED_STATE => number < calls,
        DUE_STATE => (now < number) & (number <= LAST_TIME),
        _ => true,
    }
}

// A token's fields but its node.
pub fn token_in_range(w: &[u32; Machine::WORDS], p: usize) -> bool
    requires { p < 64 }
    ensures { (m : Machine) → ValuesFit w.now m
        → result ≡ (for_all (slot_in_range 32) (token_at m.tokens p).binds and place_in_range 64
        (token_at m.tokens p).caller and place_in_range 32 (token_at m.tokens p).cell and state_in_range 32 m.calls
        (token_at m.tokens p).state and due_in_range m.clock (token_at m.tokens p).state) }
{
    let named = (caller(w, p) <= TOKEN_PLACE_COUNT) & (cell(w, p) <= CELL_PLACE_COUNT);
    let open = state_in_range(state(w, p), state_number(w, p), calls_made(w), clock(w));
    binds_in_range(w, p) & named & open
}

// The numbers beside the tables.
pub fn sizes_in_range(w: &[u32; Machine::WORDS]) -> bool
    ensures { (m : Machine) → Codes w.now m
        → result ≡ (leb m.calls 1000000 and ltb m.lasttoken 64 and ltb m.lastcell 32 and leb m.clock last_time) }
{
    (calls_made(w) <= CALL_LIMIT)
        & (last_token(w) < TOKEN_PLACE_COUNT)
        & (last_cell(w) < CELL_PLACE_COUNT)
        & (clock(w) <= LAST_TIME)
}
