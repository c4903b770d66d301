// "Parameters in order": all their values, or the first unset cell.
ghost use Rattle.std.specs.Prelude.{◌≡◌, true, ◌<◌, ◌+◌, get_or};
ghost use Rattle.job.specs.Node.{param_holds};
ghost use Rattle.job.specs.Words.{param_of};
ghost use Rattle.model.specs.Machine.Blank.{token_at, cell_at, slot_at};
ghost use Rattle.model.specs.Machine.Rules.{held_in_range};
ghost use Rattle.model.specs.Machine.Step.{look};
ghost use Rattle.model.specs.declared.record.Machine.{Machine};
ghost use Rattle.record.specs.Holds.{Codes};
ghost use Rattle.sites.specs.Look.{held_found, found_of, param_found, look_up_of, LookFacts};
ghost use Rattle.sites.specs.Row.{params_at, ParamsHold};

use crate::number::signed;
use job::dag::{PARAMETER_COUNT, PARAMETER_KIND, VARIABLE, WORDS};
use model::record::Machine;
use record::layout::{EMPTY_SLOT, VALUE_SLOT};
use record::{cell, token};

// A cell that has no value yet, by its number.
#[derive(Clone, Copy)]
pub struct UnsetCell(pub u32);

// A cell's value, where there is such a cell.
#[tactic(auto, unfolding(crate::specs::Look::held_found))]
fn cell_argument(w: &[u32; Machine::WORDS], number: u32) -> Result<Option<i32>, UnsetCell>
    ensures { (m : Machine) → Codes w.now m → number < 32 → held_in_range (cell_at m.cells number).value ≡ true
        → result ≡ held_found number (cell_at m.cells number).value }
{
    let c = number as usize;
    if Machine::CELLS <= c {
        return Ok(None);
    }
    if cell::value_kind(w, c) == 0 {
        return Err(UnsetCell(number));
    }
    Ok(Some(signed(cell::value(w, c))))
}

// A variable's value, where it is bound.
#[tactic(auto, unfolding(crate::specs::Look::found_of))]
fn variable_argument(
    w: &[u32; Machine::WORDS],
    p: usize,
    x: usize,
) -> Result<Option<i32>, UnsetCell>
    requires { (p < 64) × (x < 8) }
    ensures { (m : Machine) → Codes w.now m → LookFacts m p → result ≡ found_of m.cells (slot_at (token_at m.tokens p).binds x) }
{
    let slot = token::bind(w, p, x);
    if slot.kind == EMPTY_SLOT {
        return Ok(None);
    }
    if slot.kind == VALUE_SLOT {
        return Ok(Some(signed(slot.number)));
    }
    cell_argument(w, slot.number)
}

// The value of the parameter whose kind stands at a word of the dag, and its number behind it.
fn param_argument(
    w: &[u32; Machine::WORDS],
    dag: &[u32; WORDS],
    p: usize,
    at: usize,
) -> Result<Option<i32>, UnsetCell>
    requires { (p < 64) × (at + 1 < 12331) × (param_holds (param_of (get_or dag.now at 0) (get_or dag.now (at + 1) 0)) ≡ true) }
    ensures { (m : Machine) → Codes w.now m → LookFacts m p
        → result ≡ param_found m.cells (token_at m.tokens p).binds
        (param_of (get_or dag.now at 0) (get_or dag.now (at + 1) 0)) }
{
    let word = dag[at + 1];
    if dag[at] == VARIABLE {
        return variable_argument(w, p, word as usize);
    }
    Ok(Some(signed(word)))
}

// The values of the parameters of the node whose row begins at a word of the dag, in order and zeros behind them, or the first unset cell.
pub fn look_up(
    w: &[u32; Machine::WORDS],
    dag: &[u32; WORDS],
    p: usize,
    at: usize,
) -> Result<[i32; 4], UnsetCell>
    requires { (p < 64) × ParamsHold dag.now at }
    ensures { (m : Machine) → Codes w.now m → LookFacts m p
        → result ≡ look_up_of (look m.cells (token_at m.tokens p).binds (params_at dag.now at)) }
{
    let count = dag[at + PARAMETER_COUNT] as usize;
    let mut values = [0; 4];
    for i in 0..count {
        let Some(v) = param_argument(w, dag, p, at + PARAMETER_KIND + 2 * i)? else {
            break;
        };
        values[i] = v;
    }
    Ok(values)
}
