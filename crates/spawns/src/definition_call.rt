// Definition call: "the token becomes a frame at next, the callee is new, in the token's cell, with no value and only its formals bound".
ghost use Rattle.std.specs.Prelude.{◌≡◌, true, false, ◌<◌, ◌+◌, get_or};
ghost use Rattle.job.specs.Tail.{is_tail};
ghost use Rattle.job.specs.Words.{dag_of};
ghost use Rattle.model.specs.declared.record.Machine.{Machine};
ghost use Rattle.model.specs.Machine.Limits.{paper};
ghost use Rattle.model.specs.Machine.Step as Step;
ghost use Rattle.acts.specs.Acting.{SomeMachine, Acting, Gives};

use acts::report::plain;
use job::dag::{DEFINITIONS_START, NAMED_NUMBER, NEXT_NODE, WORDS};
use job::wide::wide;
use model::record::Machine;
use model::reply::{Refusal, Reply, Report};
use places::place::next_token;
use reach::used::Marks;
use record::count::last_token;
use spawn_writes::definition_call::written;
use writes::actor::Actor;
use writes::dag::dag_word;

// "10: .. definition call with 64 tokens in use." A call in tail position is not among them.
pub fn definition_call(
    w: &mut [u32; Machine::WORDS],
    marks: &mut Marks,
    dag: &[u32; WORDS],
    actor: Actor,
) -> Report
    requires { SomeMachine (Acting w.old marks.old dag.now actor 2) }
    ensures gives { (m : Machine) → Acting w.old marks.old dag.now actor 2 m
        → is_tail (dag_of dag.now) (get_or dag.now (actor.row + 2) 0) ≡ false
        → Gives (Step.step paper (dag_of dag.now) m actor.place) m w.new marks.new result }
    ensures cells { marks.new.cells ≡ marks.old.cells }
{
    let Some(new) = next_token(&marks.tokens, last_token(w)) else {
        return plain(Reply::Refused(Refusal::TokenLimit));
    };
    let body = wide(dag_word(dag, actor.row + NAMED_NUMBER));
    let root = dag_word(dag, DEFINITIONS_START + 2 * body);
    written(
        w,
        dag,
        actor,
        new,
        root,
        dag_word(dag, actor.row + NEXT_NODE),
    );
    marks.tokens[new] = true;
    plain(Reply::Done)
}
