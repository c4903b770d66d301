// "A token at return names a frame, at choke a cell, at a call no empty variable; a ready token at assign, remove, return, choke or
// publish has a value."
ghost use Rattle.std.specs.Prelude.{◌≡◌, true, ◌<◌, get_or, drop};
ghost use Rattle.job.specs.Test.{for_all};
ghost use Rattle.job.specs.Node.{dag_holds};
ghost use Rattle.job.specs.Words.{dag_of, node_by, param_of, params_from};
ghost use Rattle.model.specs.Machine.Blank.{token_at, is_bound, slot_at};
ghost use Rattle.model.specs.Machine.Rules.{names_frame, not_empty, value_if_ready, node_rule, at_node};
ghost use Rattle.model.specs.declared.record.Machine.{Machine};
ghost use Rattle.record.specs.Holds.{Codes};

use job::dag::{NodeKind, PARAMETER_COUNT, PARAMETER_KIND, ROW_WORDS, VARIABLE, WORDS, rows};
use job::wide::wide;
use model::record::Machine;
use record::layout::{BLANK_STATE, FRAME_STATE, READY_STATE};
use record::token::{bind, caller, cell, state, value_kind};

fn slot_is_bound(w: &[u32; Machine::WORDS], p: usize, x: u32) -> bool
    requires { p < 64 }
    ensures { (m : Machine) → Codes w.now m → result ≡ is_bound (slot_at (token_at m.tokens p).binds x) }
{
    let at = wide(x);
    at < 8 && 0 < bind(w, p, at).kind
}

// Two words of a parameter: no empty variable.
fn param_is_bound(w: &[u32; Machine::WORDS], p: usize, param: &[u32; 2]) -> bool
    requires { p < 64 }
    ensures { (m : Machine) → Codes w.now m
        → result ≡ not_empty (token_at m.tokens p).binds (param_of (get_or param.now 0 0) (get_or param.now 1 0)) }
{
    param[0] != VARIABLE || slot_is_bound(w, p, param[1])
}

fn params_are_bound(w: &[u32; Machine::WORDS], p: usize, row: &[u32; ROW_WORDS]) -> bool
    requires { p < 64 }
    ensures { (m : Machine) → Codes w.now m
        → result ≡ for_all (not_empty (token_at m.tokens p).binds) (params_from (get_or row.now 3 0) (drop 4 row.now)) }
{
    let (params, _) = row[PARAMETER_KIND..].as_chunks();
    params
        .iter()
        .take(wide(row[PARAMETER_COUNT]))
        .all(|param| param_is_bound(w, p, param))
}

fn value_if_ready(w: &[u32; Machine::WORDS], p: usize) -> bool
    requires { p < 64 }
    ensures { (m : Machine) → Codes w.now m → result ≡ value_if_ready (token_at m.tokens p) }
{
    (state(w, p) != READY_STATE) | (0 < value_kind(w, p))
}

fn names_frame(w: &[u32; Machine::WORDS], p: usize) -> bool
    requires { p < 64 }
    ensures { (m : Machine) → Codes w.now m → result ≡ names_frame m.tokens (token_at m.tokens p).caller }
{
    let above = wide(caller(w, p));
    0 < above && above <= Machine::TOKENS && state(w, above - 1) == FRAME_STATE
}

// The rule of the node that the row would be.
fn node_rule(w: &[u32; Machine::WORDS], p: usize, row: &[u32; ROW_WORDS]) -> bool
    requires { p < 64 }
    ensures { (m : Machine) → Codes w.now m → result ≡ node_rule m.tokens (token_at m.tokens p) (node_by row.now) }
{
    let Some(kind) = NodeKind::from_word(row[0]) else {
        return true;
    };
    match kind {
        NodeKind::Stop => true,
        NodeKind::Site => params_are_bound(w, p, row),
        NodeKind::Call => params_are_bound(w, p, row),
        NodeKind::Fork => true,
        NodeKind::Assign => value_if_ready(w, p),
        NodeKind::Remove => value_if_ready(w, p),
        NodeKind::Where => true,
        NodeKind::Choke => (0 < cell(w, p)) & value_if_ready(w, p),
        NodeKind::Return => names_frame(w, p) & value_if_ready(w, p),
        NodeKind::Publish => value_if_ready(w, p),
    }
}

// A blank token is at no node.
pub fn at_node(w: &[u32; Machine::WORDS], p: usize, node: usize, dag: &[u32; WORDS]) -> bool
    requires { (p < 64) × (dag_holds (dag_of dag.now) ≡ true) × (node < get_or dag.now 0 0) }
    ensures { (m : Machine) → Codes w.now m → node ≡ (token_at m.tokens p).node
        → result ≡ at_node (dag_of dag.now) m.tokens (token_at m.tokens p) }
{
    state(w, p) == BLANK_STATE || node_rule(w, p, &rows(dag)[node])
}
