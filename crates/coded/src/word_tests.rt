// Are words those of a record? Words that are not those of their decoding are no record (docs/DECISIONS.md, "Words that are no record's").
ghost use Rattle.std.specs.Prelude.{◌≡◌, true, ◌<◌, length, drop};
ghost use Rattle.record.specs.LayoutDecoded.{machine_of};
ghost use Rattle.record.specs.Holds.{Codes};
ghost use Rattle.coded.specs.WordTests.{slot_coded, held_coded, state_coded, row_coded, cell_coded, token_coded};
ghost use Rattle.coded.specs.WordTests.{cell_at_coded};
ghost use Rattle.job.specs.Rows.{words_in_rows};
ghost use Rattle.coded.specs.IsRecord.{is_record};

use model::record::Machine;
use record::layout::{
    BLANK_STATE, CALLED_STATE, CELL_SLOT, CELL_UNUSED, CELL_VALUE, CELL_VALUE_KIND, CELL_WORDS,
    CELLS_START, DUE_STATE, EMPTY_SLOT, FRAME_STATE, QUEUE_START, READY_STATE, TOKEN_BIND_KIND,
    TOKEN_STATE_NUMBER, TOKEN_UNUSED, TOKEN_VALUE, TOKEN_VALUE_KIND, TOKEN_WORDS, VALUE_SLOT,
    WAITING_STATE,
};

fn slot_coded(kind: u32, number: u32) -> bool
    ensures { result ≡ slot_coded kind number }
{
    match kind {
        EMPTY_SLOT => number == 0,
        VALUE_SLOT | CELL_SLOT => true,
        _ => false,
    }
}

fn held_coded(kind: u32, number: u32) -> bool
    ensures { result ≡ held_coded kind number }
{
    match kind {
        0 => number == 0,
        1 => true,
        _ => false,
    }
}

// Waiting, called out and due later have a number of their own; blank, ready and frame have none.
fn state_coded(kind: u32, number: u32) -> bool
    ensures { result ≡ state_coded kind number }
{
    match kind {
        BLANK_STATE | READY_STATE | FRAME_STATE => number == 0,
        WAITING_STATE | CALLED_STATE | DUE_STATE => true,
        _ => false,
    }
}

// The words of a token.
fn row_coded(row: &[u32; TOKEN_WORDS]) -> bool
    ensures { result ≡ row_coded row.now }
{
    let (binds, _) = row[TOKEN_BIND_KIND..].as_chunks::<2>();
    state_coded(row[0], row[TOKEN_STATE_NUMBER])
        && held_coded(row[TOKEN_VALUE_KIND], row[TOKEN_VALUE])
        && row[TOKEN_UNUSED] == 0
        && binds.iter().all(|bind| slot_coded(bind[0], bind[1]))
}

// The words of a cell.
fn cell_row_coded(row: &[u32; CELL_WORDS]) -> bool
    ensures { result ≡ cell_coded row.now }
{
    held_coded(row[CELL_VALUE_KIND], row[CELL_VALUE]) && row[CELL_UNUSED] == 0
}

fn tokens(w: &[u32; Machine::WORDS]) -> &[[u32; TOKEN_WORDS]]
    ensures rows { result.now ≡ words_in_rows 24 64 w.now }
    ensures count { length result.now ≡ 64 }
{
    w[..CELLS_START].as_chunks().0
}

fn cells(w: &[u32; Machine::WORDS]) -> &[[u32; CELL_WORDS]]
    ensures rows { result.now ≡ words_in_rows 4 32 (drop 1536 w.now) }
    ensures count { length result.now ≡ 32 }
{
    w[CELLS_START..QUEUE_START].as_chunks().0
}

// The words of the token at a place.
pub fn token_coded(w: &[u32; Machine::WORDS], p: usize) -> bool
    requires { p < 64 }
    ensures { result ≡ token_coded w.now p }
{
    row_coded(&tokens(w)[p])
}

// The words of the cell at a place.
pub fn cell_coded(w: &[u32; Machine::WORDS], c: usize) -> bool
    requires { c < 32 }
    ensures { result ≡ cell_at_coded w.now c }
{
    cell_row_coded(&cells(w)[c])
}

pub fn is_record(w: &[u32; Machine::WORDS]) -> bool
    ensures { (result ≡ is_record w.now) × (result ≡ true → Codes w.now (machine_of w.now)) }
{
    tokens(w).iter().all(row_coded) && cells(w).iter().all(cell_row_coded)
}
