// The instructions that change who names a frame as its caller, with the marks of the frames that may have more than one callee. A return
// looks for another callee only where its frame is marked.
ghost use Rattle.std.specs.Prelude.{◌≡◌, ◌<◌, true, length, get_or};
ghost use Rattle.job.specs.Words.{dag_of};
ghost use Rattle.model.specs.Machine.Blank.{token_at};
ghost use Rattle.model.specs.Machine.Limits.{paper};
ghost use Rattle.model.specs.Machine.Step as Step;
ghost use Rattle.model.specs.declared.record.Machine.{Machine};
ghost use Rattle.record.specs.Holds.{Codes};
ghost use Rattle.acts.specs.Acting.{SomeMachine, Acting};
ghost use Rattle.acts.specs.SharedFrames.{OneCallee, caller_shared, Stepped};

use job::dag::{NEXT_NODE, WORDS};
use model::record::Machine;
use model::reply::Report;
use reach::used::Marks;
use record::token::caller;
use returns::return_value::return_value;
use spawns::definition_call::definition_call;
use tail_calls::tail_call::tail_call;
use tail_writes::tail::is_tail;
use writes::actor::Actor;
use writes::dag::dag_word;

// The caller of the token at p gets one more callee.
pub(crate) fn share_caller(w: &[u32; Machine::WORDS], p: usize, shared: &mut [bool])
    requires { (p < 64) × (length shared.old ≡ 64) }
    ensures { (m : Machine) → Codes w.now m
        → shared.new ≡ caller_shared (token_at m.tokens p).caller shared.old }
{
    let f = caller(w, p) as usize;
    if 0 < f {
        if f <= Machine::TOKENS {
            shared[f - 1] = true;
        }
    }
}

// May the frame at f have more than one callee?
fn is_shared(shared: &[bool], f: usize) -> bool
    requires { (f < 64) × (length shared.now ≡ 64) }
    ensures { result ≡ get_or shared.now f true }
{
    shared[f]
}

// Nobody names the token: not before it becomes a frame, and not where it becomes the callee.
pub(crate) fn call_marked(
    w: &mut [u32; Machine::WORDS],
    marks: &mut Marks,
    shared: &mut [bool; Machine::TOKENS],
    dag: &[u32; WORDS],
    actor: Actor,
) -> Report
    requires { SomeMachine (Acting w.old marks.old dag.now actor 2) }
    ensures { (m : Machine) → Acting w.old marks.old dag.now actor 2 m
        → OneCallee shared.old m
        → Stepped (Step.step paper (dag_of dag.now) m actor.place) m w.new marks.new shared.new result }
{
    shared[actor.token] = false;
    let next = dag_word(dag, actor.row + NEXT_NODE) as usize;
    if is_tail(dag, next) {
        return tail_call(w, marks, dag, actor);
    }
    definition_call(w, marks, dag, actor)
}

// A frame that stays behind names its caller beside the token that took its links.
pub(crate) fn return_marked(
    w: &mut [u32; Machine::WORDS],
    marks: &mut Marks,
    shared: &mut [bool; Machine::TOKENS],
    dag: &[u32; WORDS],
    actor: Actor,
) -> Report
    requires { SomeMachine (Acting w.old marks.old dag.now actor 8) }
    ensures { (m : Machine) → Acting w.old marks.old dag.now actor 8 m
        → OneCallee shared.old m
        → Stepped (Step.step paper (dag_of dag.now) m actor.place) m w.new marks.new shared.new result }
{
    let f = caller(w, actor.token) as usize - 1;
    if is_shared(shared, f) {
        share_caller(w, f, shared);
        return return_value(w, marks, dag, actor, true);
    }
    return_value(w, marks, dag, actor, false)
}
