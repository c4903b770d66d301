// Chains of cells upward.
ghost use Rattle.std.specs.Prelude.{◌≡◌};
ghost use Rattle.model.specs.Machine.Active.{under_set};
ghost use Rattle.model.specs.declared.record.Machine.{Machine};
ghost use Rattle.record.specs.LayoutDecoded.{place_from};
ghost use Rattle.record.specs.Holds.{Codes};

use job::wide::wide;
use model::record::Machine;
use record::cell::{parent, value_kind};

// "[a] set cell among their cell and its ancestors"
pub fn under_set(w: &[u32; Machine::WORDS], start: usize) -> bool
    ensures { (m : Machine) → Codes w.now m → result ≡ under_set m.cells (place_from start) }
{
    let mut q = start;
    for _ in 0..Machine::CELLS {
        if q == 0 {
            return false;
        }
        let c = q - 1;
        if Machine::CELLS <= c {
            return false;
        }
        if value_kind(w, c) != 0 {
            return true;
        }
        q = wide(parent(w, c));
    }
    false
}
