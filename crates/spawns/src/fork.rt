// Fork: "left keeps the place, right is new".
ghost use Rattle.std.specs.Prelude.{◌≡◌, ◌<◌};
ghost use Rattle.model.specs.declared.record.Machine.{Machine};
ghost use Rattle.job.specs.Words.{dag_of};
ghost use Rattle.model.specs.Machine.Limits.{paper};
ghost use Rattle.model.specs.Machine.Step as Step;
ghost use Rattle.acts.specs.Acting.{SomeMachine, Acting, Gives};

use acts::report::plain;
use job::dag::{LEFT_NODE, RIGHT_NODE, WORDS};
use model::record::Machine;
use model::reply::{Refusal, Reply, Report};
use places::place::next_token;
use reach::used::Marks;
use record::count::last_token;
use spawn_writes::branches::Branches;
use spawn_writes::fork::written;
use writes::actor::Actor;
use writes::dag::dag_word;

// "10: fork .. with 64 tokens in use."
pub fn fork(
    w: &mut [u32; Machine::WORDS],
    marks: &mut Marks,
    dag: &[u32; WORDS],
    actor: Actor,
) -> Report
    requires { SomeMachine (Acting w.old marks.old dag.now actor 3) }
    ensures gives { (m : Machine) → Acting w.old marks.old dag.now actor 3 m
        → Gives (Step.step paper (dag_of dag.now) m actor.place) m w.new marks.new result }
    ensures cells { marks.new.cells ≡ marks.old.cells }
{
    let Some(new) = next_token(&marks.tokens, last_token(w)) else {
        return plain(Reply::Refused(Refusal::TokenLimit));
    };
    written(
        w,
        actor,
        new,
        Branches {
            left: dag_word(dag, actor.row + LEFT_NODE),
            right: dag_word(dag, actor.row + RIGHT_NODE),
        },
    );
    marks.tokens[new] = true;
    plain(Reply::Done)
}
