// Marking along the links of a record: callers, parents, and what a token names. A place is given by its number, one more than the place,
// with 0 for nowhere; a place out of range ends a chain.
ghost use Rattle.std.specs.Prelude.{◌≡◌, ℕ, List, ◌<◌, length, get_or};
ghost use Rattle.model.specs.Machine.Active.{is_active};
ghost use Rattle.model.specs.Machine.Blank.{empty, token_at};
ghost use Rattle.model.specs.Machine.InUse.{bound_cell, cells_of, mark_chain};
ghost use Rattle.model.specs.declared.record.Machine.{Machine};
ghost use Rattle.model.specs.Machine.Held.{Place};
ghost use Rattle.record.specs.LayoutDecoded.{place_from};
ghost use Rattle.record.specs.Holds.{Codes};
ghost use Rattle.record.specs.Layout.{place_number};
ghost use Rattle.reach.specs.Marks.{callers_marked, parents_marked, cells_marked, active_marked, held_marked};

use crate::under_set::under_set;
use job::wide::wide;
use model::record::Machine;
use record::cell::parent;
use record::layout::{BLANK_STATE, CELL_SLOT, FRAME_STATE};
use record::token::{bind, caller, cell, state};

// Marks the chain of places from one on, by the number of the place that each links to, until it ends or comes to a marked place.
fn mark_chain<L: Fn(usize) -> u32>(start: usize, marks: &mut [bool], link: L)
    requires { (p : ℕ) → p < length marks.old → L.pre link p }
    ensures { (links : List Place) (end : Place)
        → ((p r : ℕ) → p < length marks.old → L.post link p r → r ≡ place_number (get_or links p end))
        → marks.new ≡ mark_chain (λ (q : Place). q) end links (length marks.old) (place_from start) marks.old }
{
    let mut q = start;
    for _ in 0..marks.len() {
        if q == 0 {
            return;
        }
        let p = q - 1;
        if marks.len() <= p {
            return;
        }
        if marks[p] {
            return;
        }
        marks[p] = true;
        q = wide(link(p));
    }
}

// The chain of callers from a place.
fn mark_callers(w: &[u32; Machine::WORDS], start: usize, marks: &mut [bool])
    requires { length marks.old ≡ 64 }
    ensures { (m : Machine) → Codes w.now m → marks.new ≡ callers_marked m (place_from start) marks.old }
{
    mark_chain(start, marks, |p| caller(w, p));
}

// The chain of parents from a cell.
fn mark_parents(w: &[u32; Machine::WORDS], start: usize, marks: &mut [bool])
    requires { length marks.old ≡ 32 }
    ensures { (m : Machine) → Codes w.now m → marks.new ≡ parents_marked m (place_from start) marks.old }
{
    mark_chain(start, marks, |c| parent(w, c));
}

// "Active tokens are ready, waiting or called-out, with no set cell among their cell and its ancestors"; so are those due later
fn active(w: &[u32; Machine::WORDS], p: usize) -> bool
    requires { p < 64 }
    ensures { (m : Machine) → Codes w.now m → result ≡ is_active m.cells (token_at m.tokens p) }
{
    let s = state(w, p);
    if s == BLANK_STATE {
        return false;
    }
    if s == FRAME_STATE {
        return false;
    }
    !under_set(w, wide(cell(w, p)))
}

// Marks an active token and what it reaches by its callers.
pub(crate) fn mark_active(w: &[u32; Machine::WORDS], p: usize, marks: &mut [bool])
    requires { (p < 64) × (length marks.old ≡ 64) }
    ensures { (m : Machine) → Codes w.now m → marks.new ≡ active_marked m p marks.old }
{
    if active(w, p) {
        mark_callers(w, p + 1, marks);
    }
}

// The number of the cell that a binding names.
fn bound(w: &[u32; Machine::WORDS], p: usize, x: usize) -> usize
    requires { (p < 64) × (x < 8) }
    ensures { (m : Machine) → Codes w.now m → result ≡ place_number (bound_cell (get_or (token_at m.tokens p).binds x empty)) }
{
    let slot = bind(w, p, x);
    if slot.kind != CELL_SLOT {
        return 0;
    }
    wide(slot.number) + 1
}

// Marks what a token's own cell and its bindings reach.
fn mark_named(w: &[u32; Machine::WORDS], p: usize, marks: &mut [bool])
    requires { (p < 64) × (length marks.old ≡ 32) }
    ensures { (m : Machine) → Codes w.now m
        → marks.new ≡ cells_marked m (cells_of (token_at m.tokens p)) marks.old }
{
    mark_parents(w, wide(cell(w, p)), marks);
    for x in 0..8 {
        mark_parents(w, bound(w, p, x), marks);
    }
}

// The same for a token that is in use.
pub(crate) fn mark_held(w: &[u32; Machine::WORDS], p: usize, used: bool, marks: &mut [bool])
    requires { (p < 64) × (length marks.old ≡ 32) }
    ensures { (m : Machine) → Codes w.now m → marks.new ≡ held_marked m p used marks.old }
{
    if used {
        mark_named(w, p, marks);
    }
}
