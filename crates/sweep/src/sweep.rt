// "The rest is blank after each accepted call." What was not marked is blank already.
ghost use Rattle.std.specs.Prelude.{◌≡◌, true, false, ℕ, ◌+◌, ◌<◌, ◌≤◌, length, get_or};
ghost use Rattle.model.specs.Machine.Blank.{blank_token, blank_cell, token_at, cell_at};
ghost use Rattle.model.specs.Machine.InUse.{used_cells, rest_blanked, sweep};
ghost use Rattle.model.specs.Machine.Update.{with_tables};
ghost use Rattle.model.specs.declared.record.Machine.{Machine};
ghost use Rattle.record.specs.Holds.{Holds};
ghost use Rattle.reach.specs.Marks.{MarksOf, Vacant, FreeTokens, FreeCells, UnmarkedFrom, BlankFrom, cells_swept};

use model::record::Machine;
use reach::marks::{mark_cells, mark_tokens, marked_end};
use reach::used::Marks;
use record::cell::put_unset;
use record::token::blank;

// Makes each row before the end blank that was in use and is no more: `stage` is the record before each row's turn.
fn keep_rows<B: Fn(&mut [u32; Machine::WORDS], usize)>(
    w: &mut [u32; Machine::WORDS],
    marks: &[bool],
    used: &[bool],
    end: usize,
    make_blank: B,
)
    requires upper_bound { (end ≤ length marks.now) × (end ≤ length used.now) }
    requires callable { (v : _) (p : ℕ) → p < end → B.pre make_blank v p }
    ensures { (stage : ℕ → Machine) → Holds w.old (stage 0)
        → ((p : ℕ) → p < end → get_or used.now p false ≡ true → stage p ≡ stage (p + 1))
        → ((p : ℕ) → p < end → get_or marks.now p false ≡ false → stage p ≡ stage (p + 1))
        → ((p : ℕ) (v v′ : _) → p < end → get_or used.now p false ≡ false → Holds v.now (stage p) → B.post make_blank v p tt v′
        → Holds v′.now (stage (p + 1)))
        → Holds w.new (stage end) }
{
    for p in 0..end {
        if marks[p] & !used[p] {
            make_blank(w, p);
        }
    }
}

// The tokens' rows by what is in use. From the end on none was marked.
fn keep_tokens(w: &mut [u32; Machine::WORDS], marks: &[bool], used: &[bool], end: usize)
    requires { (length marks.now ≡ 64) × (length used.now ≡ 64) × (end ≤ 64) × UnmarkedFrom marks.now end 64 }
    ensures { (m : Machine) → Holds w.old m → FreeTokens m marks.now
        → Holds w.new (with_tables (rest_blanked blank_token used.now m.tokens) m.cells m) }
{
    keep_rows(w, marks, used, end, blank);
}

// The same of the cells', which the marks then say.
fn keep_cells(w: &mut [u32; Machine::WORDS], marks: &mut [bool], used: &[bool], end: usize)
    requires { (length marks.old ≡ 32) × (length used.now ≡ 32) × (end ≤ 32) × UnmarkedFrom marks.old end 32 }
    ensures { (marks.new ≡ used.now)
        × ((m : Machine) → Holds w.old m → FreeCells m marks.old
        → Holds w.new (with_tables m.tokens (rest_blanked blank_cell used.now m.cells) m)) }
{
    keep_rows(w, marks, used, end, |w, c| put_unset(w, c, 0));
    marks.copy_from_slice(used);
}

// The cells that these tokens, all before the end, reach no more.
fn sweep_cells(
    w: &mut [u32; Machine::WORDS],
    tokens: &[bool; Machine::TOKENS],
    marks: &mut [bool; Machine::CELLS],
    end: usize,
)
    requires { end ≤ 64 }
    ensures { (m : Machine) → Holds w.old m → BlankFrom m end → FreeCells m marks.old
        → Holds w.new (cells_swept tokens.now m)
        × (marks.new ≡ used_cells tokens.now m.tokens m.cells) }
{
    let mut used = [false; Machine::CELLS];
    mark_cells(w, tokens, &mut used, end);
    let cells_end = marked_end(marks);
    keep_cells(w, marks, &used, cells_end);
}

// The marks say which rows may be other than blank; from the end on none is marked. Rows that are in use no more become blank, and the
// marks say what is in use now: last, since what was just marked one by one is not read at once without waiting for it.
pub fn sweep_to(w: &mut [u32; Machine::WORDS], marks: &mut Marks, end: usize)
    requires { (end ≤ 64) × UnmarkedFrom marks.old.tokens end 64 }
    ensures { (m : Machine) → Holds w.old m → Vacant m marks.old
        → Holds w.new (sweep m) × MarksOf (sweep m) marks.new }
{
    let mut used = [false; Machine::TOKENS];
    mark_tokens(w, &mut used, end);
    keep_tokens(w, &marks.tokens, &used, end);
    sweep_cells(w, &used, &mut marks.cells, end);
    marks.tokens.copy_from_slice(&used);
}

pub fn sweep(w: &mut [u32; Machine::WORDS], marks: &mut Marks)
    ensures { (m : Machine) → Holds w.old m → Vacant m marks.old
        → Holds w.new (sweep m) × MarksOf (sweep m) marks.new }
{
    let end = marked_end(&marks.tokens);
    sweep_to(w, marks, end);
}
