// Document 02, request 2: "the token itself becomes the callee and the callee inherits its caller". "10 is then not given for such a call."
ghost use Rattle.std.specs.Prelude.{◌≡◌, true, ◌+◌, get_or};
ghost use Rattle.job.specs.Tail.{is_tail};
ghost use Rattle.job.specs.Words.{dag_of};
ghost use Rattle.model.specs.Machine.Limits.{paper};
ghost use Rattle.model.specs.Machine.Step as Step;
ghost use Rattle.model.specs.declared.record.Machine.{Machine};
ghost use Rattle.acts.specs.Acting.{SomeMachine, Acting, Gives};

use acts::links::binds_cell;
use acts::report::plain;
use job::dag::{DEFINITIONS_START, NAMED_NUMBER, WORDS};
use job::wide::wide;
use model::record::Machine;
use model::reply::{Reply, Report};
use reach::used::Marks;
use sweep::sweep::sweep;
use tail_writes::tail_call::written;
use writes::actor::Actor;
use writes::dag::dag_word;

// What was bound before may have been the last to name a cell.
pub fn tail_call(
    w: &mut [u32; Machine::WORDS],
    marks: &mut Marks,
    dag: &[u32; WORDS],
    actor: Actor,
) -> Report
    requires { SomeMachine (Acting w.old marks.old dag.now actor 2) }
    ensures { (m : Machine) → Acting w.old marks.old dag.now actor 2 m
        → is_tail (dag_of dag.now) (get_or dag.now (actor.row + 2) 0) ≡ true
        → Gives (Step.step paper (dag_of dag.now) m actor.place) m w.new marks.new result }
{
    let body = wide(dag_word(dag, actor.row + NAMED_NUMBER));
    let root = dag_word(dag, DEFINITIONS_START + 2 * body);
    let bound = binds_cell(w, actor.token);
    written(w, dag, actor, root);
    if bound {
        sweep(w, marks);
    }
    plain(Reply::Done)
}
