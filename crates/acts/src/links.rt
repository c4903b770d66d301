// What a token names.
ghost use Rattle.std.specs.Prelude.{◌≡◌, false, ◌<◌};
ghost use Rattle.model.specs.Machine.Blank.{token_at};
ghost use Rattle.model.specs.declared.record.Machine.{Machine};
ghost use Rattle.record.specs.Holds.{Codes};
ghost use Rattle.acts.specs.Links.{NoLinks, binds_cell};

use model::record::Machine;
use record::layout::CELL_SLOT;
use record::token::{bind, caller, cell};

// Does the token at p bind a cell?
pub fn binds_cell(w: &[u32; Machine::WORDS], p: usize) -> bool
    requires { p < 64 }
    ensures { (m : Machine) → Codes w.now m → result ≡ binds_cell (token_at m.tokens p).binds }
{
    (0..8).any(|x| bind(w, p, x).kind == CELL_SLOT)
}

// Does it name a caller, a cell or a bound cell?
pub(crate) fn names(w: &[u32; Machine::WORDS], p: usize) -> bool
    requires { p < 64 }
    ensures { (m : Machine) → Codes w.now m → result ≡ false → NoLinks (token_at m.tokens p) }
{
    if caller(w, p) == 0 {
        if cell(w, p) == 0 {
            return binds_cell(w, p);
        }
    }
    true
}
