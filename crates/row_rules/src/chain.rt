// Chains of cells: "each parent chain ends"; "no ready, waiting or called-out token is under a set cell"; waits at an unset cell.
ghost use Rattle.std.specs.Prelude.{◌≡◌, ◌<◌};
ghost use Rattle.job.specs.Test.{◌and◌};
ghost use Rattle.model.specs.Machine.Blank.{token_at};
ghost use Rattle.model.specs.Machine.Rules.{chain_ends, not_under_set, waits_at_unset};
ghost use Rattle.model.specs.declared.record.Machine.{Machine};
ghost use Rattle.model.specs.declared.token.State.{State};
ghost use Rattle.record.specs.LayoutDecoded.{place_from};
ghost use Rattle.record.specs.Holds.{Codes};
ghost use Rattle.record.specs.Layout.{state_kind, state_number};

use job::wide::wide;
use model::record::Machine;
use reach::under_set::under_set;
use record::cell::{parent, value_kind};
use record::layout::{BLANK_STATE, CELL_PLACE_COUNT, FRAME_STATE, WAITING_STATE};
use record::token::{cell, state, state_number};

// Does the chain from a place end, within as many links as there are cells?
pub fn chain_ends(w: &[u32; Machine::WORDS], place: u32) -> bool
    ensures { (m : Machine) → Codes w.now m → result ≡ chain_ends m.cells 32 (place_from place) }
{
    let mut here = place;
    for _link in 0..Machine::CELLS {
        if (here == 0) | (CELL_PLACE_COUNT < here) {
            return true;
        }
        here = parent(w, wide(here) - 1);
    }
    here == 0
}

// A token in the state that has these words: if it waits, then at an unset cell.
fn waits_at_unset(w: &[u32; Machine::WORDS], kind: u32, number: u32) -> bool
    ensures { (m : Machine) (s : State) → Codes w.now m → kind ≡ state_kind s → number ≡ state_number s
        → result ≡ waits_at_unset m.cells s }
{
    let at = wide(number);
    kind != WAITING_STATE || Machine::CELLS <= at || value_kind(w, at) == 0
}

// A token that is blank or a frame passes; any other must be under no set cell.
pub fn is_free(w: &[u32; Machine::WORDS], p: usize) -> bool
    requires { p < 64 }
    ensures { (m : Machine) → Codes w.now m
        → result ≡ (not_under_set m.cells (token_at m.tokens p) and waits_at_unset m.cells (token_at m.tokens p).state) }
{
    let kind = state(w, p);
    if (kind == BLANK_STATE) | (kind == FRAME_STATE) {
        return true;
    }
    !under_set(w, wide(cell(w, p))) & waits_at_unset(w, kind, state_number(w, p))
}
