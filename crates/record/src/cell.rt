// A cell's row: readers and writers of its fields.
ghost use Rattle.std.specs.Prelude.{◌≡◌, ◌<◌};
ghost use Rattle.model.specs.Machine.Blank.{cell_at};
ghost use Rattle.model.specs.declared.record.Machine.{Machine};
ghost use Rattle.model.specs.Machine.Held.{Held, Place};
ghost use Rattle.record.specs.Changes.{store_cell, unset_cell, set_cell};
ghost use Rattle.record.specs.Holds.{Codes, Holds};
ghost use Rattle.record.specs.Layout.{place_number, held_kind, held_number};

use crate::layout::{CELL_VALUE, CELL_VALUE_KIND, CELL_WORDS, CELLS_START};
use model::record::Machine;

pub fn parent(w: &[u32; Machine::WORDS], c: usize) -> u32
    requires { c < 32 }
    ensures { (m : Machine) → Codes w.now m → result ≡ place_number (cell_at m.cells c).parent }
{
    w[CELLS_START + CELL_WORDS * c]
}

pub fn value_kind(w: &[u32; Machine::WORDS], c: usize) -> u32
    requires { c < 32 }
    ensures { (m : Machine) → Codes w.now m → result ≡ held_kind (cell_at m.cells c).value }
{
    w[CELLS_START + CELL_WORDS * c + CELL_VALUE_KIND]
}

pub fn value(w: &[u32; Machine::WORDS], c: usize) -> u32
    requires { c < 32 }
    ensures { (m : Machine) → Codes w.now m → result ≡ held_number (cell_at m.cells c).value }
{
    w[CELLS_START + CELL_WORDS * c + CELL_VALUE]
}

// A cell without a value, below the parent that has this number. With 0, for nowhere, it is a blank cell.
pub fn put_unset(w: &mut [u32; Machine::WORDS], c: usize, parent: u32)
    requires { c < 32 }
    ensures { (m : Machine) (q : Place) → Holds w.old m → place_number q ≡ parent
        → Holds w.new (store_cell c (unset_cell q) m) }
{
    w[CELLS_START + CELL_WORDS * c] = parent;
    w[CELLS_START + CELL_WORDS * c + CELL_VALUE_KIND] = 0;
    w[CELLS_START + CELL_WORDS * c + CELL_VALUE] = 0;
}

// "Set the cell", to the value whose words these are.
pub fn set_value(w: &mut [u32; Machine::WORDS], c: usize, kind: u32, number: u32)
    requires { c < 32 }
    ensures { (m : Machine) (v : Held) → Holds w.old m → held_kind v ≡ kind → held_number v ≡ number
        → Holds w.new (store_cell c (set_cell v (cell_at m.cells c)) m) }
{
    w[CELLS_START + CELL_WORDS * c + CELL_VALUE_KIND] = kind;
    w[CELLS_START + CELL_WORDS * c + CELL_VALUE] = number;
}
