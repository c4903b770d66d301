// The rules of the cells: each row is looked at once, and one that is not in use only for being blank.
ghost use Rattle.std.specs.Prelude.{◌≡◌, true, ◌||◌, ℕ, ◌<◌, length};
ghost use Rattle.job.specs.Test.{◌and◌, for_all};
ghost use Rattle.model.specs.Machine.Blank.{cell_at, cell_is_blank};
ghost use Rattle.model.specs.Machine.Rules.{rest_is_blank};
ghost use Rattle.model.specs.declared.record.Machine.{Machine};
ghost use Rattle.coded.specs.WordTests.{cell_at_coded};
ghost use Rattle.row_rules.specs.ValuesFit.{ValuesFit};
ghost use Rattle.row_rules.specs.RowRules.{cell_rule};

use coded::word_tests::cell_coded;
use model::record::Machine;
use reach::marks::few_or_all;
use record::cell::parent;
use record::layout::CELL_PLACE_COUNT;
use row_rules::blank::{cell_is_blank, cells_are_blank};
use row_rules::chain::chain_ends;

// The words and the rules of one cell. A blank one keeps them all.
fn cell_holds(w: &[u32; Machine::WORDS], c: usize, used: bool) -> bool
    requires { c < 32 }
    ensures { (result ≡ true → cell_at_coded w.now c ≡ true)
        × ((m : Machine) → ValuesFit w.now m
        → result ≡ (cell_rule m.cells (cell_at m.cells c) and (used || cell_is_blank (cell_at m.cells c)))) }
{
    if !used {
        return cell_coded(w, c) & cell_is_blank(w, c);
    }
    let above = parent(w, c);
    cell_coded(w, c) & (above <= CELL_PLACE_COUNT) & chain_ends(w, above)
}

// Where few places are in use, the words of the others are tested together.
pub(crate) fn cells_hold(w: &[u32; Machine::WORDS], used: &[bool; Machine::CELLS]) -> bool
    ensures { (result ≡ true → (c : ℕ) → c < 32 → cell_at_coded w.now c ≡ true)
        × ((m : Machine) → ValuesFit w.now m → length used.now ≡ 32
        → result ≡ (for_all (cell_rule m.cells) m.cells and rest_is_blank cell_is_blank used.now m.cells)) }
{
    let mut ok = true;
    let end = few_or_all(used);
    for i in 0..end {
        ok &= cell_holds(w, i, used[i]);
    }
    ok & cells_are_blank(w, end)
}
