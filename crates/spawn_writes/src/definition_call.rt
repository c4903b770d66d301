// Definition call: "the token becomes a frame at next, the callee is new, in the token's cell, with no value and only its formals bound".
ghost use Rattle.std.specs.Prelude.{◌≡◌, true, ◌<◌};
ghost use Rattle.job.specs.Node.{param_holds};
ghost use Rattle.job.specs.Words.{param_of};
ghost use Rattle.model.specs.Machine.Blank.{blank_token, token_at};
ghost use Rattle.model.specs.Machine.Update.{with_node, with_state, with_binding, put, enqueue, new_token};
ghost use Rattle.model.specs.Machine.Step.{passed, formals_bound};
ghost use Rattle.model.specs.declared.record.Machine.{Machine};
ghost use Rattle.model.specs.Machine.Held.{Place};
ghost use Rattle.model.specs.declared.token.State.TheVariants as states;
ghost use Rattle.model.specs.declared.token.Token.{Token};
ghost use Rattle.record.specs.Changes.{dequeued, with_binds};
ghost use Rattle.record.specs.Holds.{Holds};
ghost use Rattle.record.specs.Layout.{place_number};
ghost use Rattle.sites.specs.Row.{ParamsHold, params_at, callee};

use job::dag::{PARAMETER_COUNT, PARAMETER_KIND, PARAMETER_WORD, VARIABLE, WORDS};
use job::wide::wide;
use model::record::Machine;
use record::count::set_last_token;
use record::layout::{FRAME_STATE, READY_STATE, VALUE_SLOT};
use record::order::{Queue, replace};
use record::token::{SlotWords, bind, cell, set_bind, set_caller, set_cell, set_node, set_state};
use writes::actor::Actor;
use writes::dag::dag_word;

// "A variable's binding is passed on as it is, its cell set or unset": one parameter, by its kind and word, to the formal i.
fn pass(w: &mut [u32; Machine::WORDS], p: usize, new: usize, i: usize, kind: u32, number: u32)
    requires { (p < 64) × (new < 64) × (i < 8) × (param_holds (param_of kind number) ≡ true) }
    ensures { (m : Machine) (t : Token) → Holds w.old (put new t m) → (p ≡ new → ⊥)
        → Holds w.new (put new (with_binding i (passed (token_at m.tokens p).binds (param_of kind number)) t) m) }
{
    if kind == VARIABLE {
        let x = wide(number);
        let slot = bind(w, p, x);
        set_bind(w, new, i, slot);
        return;
    }
    let value = SlotWords {
        kind: VALUE_SLOT,
        number,
    };
    set_bind(w, new, i, value);
}

// "only its formals bound"
fn pass_all(w: &mut [u32; Machine::WORDS], dag: &[u32; WORDS], actor: Actor, new: usize)
    requires { (actor.token < 64) × (new < 64) × ParamsHold dag.now actor.row }
    ensures { let p = actor.token in (m : Machine) → Holds w.old (put new blank_token m) → (p ≡ new → ⊥)
        → Holds w.new
        (put new (with_binds (formals_bound (token_at m.tokens p).binds (params_at dag.now actor.row)) blank_token) m) }
{
    let count = wide(dag_word(dag, actor.row + PARAMETER_COUNT));
    for i in 0..count {
        let kind = dag_word(dag, actor.row + PARAMETER_KIND + 2 * i);
        let number = dag_word(dag, actor.row + PARAMETER_WORD + 2 * i);
        pass(w, actor.token, new, i, kind, number);
    }
}

// The callee at the place `new`, which was blank; `home` is the number of the token's cell.
fn put_callee(
    w: &mut [u32; Machine::WORDS],
    dag: &[u32; WORDS],
    actor: Actor,
    new: usize,
    root: u32,
    home: u32,
)
    requires { (actor.token < 64) × (new < 64) × ParamsHold dag.now actor.row }
    ensures { let p = actor.token in (m : Machine) (q : Place) → Holds w.old m → (p ≡ new → ⊥) → token_at m.tokens new ≡ blank_token
        → place_number q ≡ home
        → Holds w.new (put new (callee p q (token_at m.tokens p).binds root (params_at dag.now actor.row)) m) }
{
    pass_all(w, dag, actor, new);
    set_state(w, new, READY_STATE, 0);
    set_node(w, new, root);
    set_caller(w, new, actor.token as u32 + 1);
    set_cell(w, new, home);
}

// What a definition call writes, with the callee at the place `new`.
pub fn written(
    w: &mut [u32; Machine::WORDS],
    dag: &[u32; WORDS],
    actor: Actor,
    new: usize,
    root: u32,
    next: u32,
)
    requires { (actor.token < 64) × (new < 64) × ParamsHold dag.now actor.row }
    ensures { let p = actor.token in (m : Machine) → Holds w.old m → actor.place < m.queued → (p ≡ new → ⊥) → token_at m.tokens new ≡ blank_token
        → Holds w.new
        (enqueue new (new_token new
        (callee p (token_at m.tokens p).cell (token_at m.tokens p).binds root (params_at dag.now actor.row))
        (put p (with_node next (with_state states.Frame (token_at m.tokens p))) (dequeued m actor.place)))) }
{
    let home = cell(w, actor.token);
    replace::<Queue>(w, actor.place, new as u32);
    set_state(w, actor.token, FRAME_STATE, 0);
    set_node(w, actor.token, next);
    put_callee(w, dag, actor, new, root, home);
    set_last_token(w, new as u32);
}
