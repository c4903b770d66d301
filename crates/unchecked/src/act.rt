// The calls on a record whose index rules hold: they are not tested again. The marks say what is in use, before a call and after it.
ghost use Rattle.std.specs.Prelude.{get_or};
ghost use Rattle.job.specs.Words.{dag_of};
ghost use Rattle.model.specs.Machine.Limits.{paper};
ghost use Rattle.model.specs.Machine.Step as Step;
ghost use Rattle.model.specs.declared.record.Machine.{Machine};
ghost use Rattle.acts.specs.Acting.{SomeMachine, Acting};
ghost use Rattle.acts.specs.SharedFrames.{OneCallee, Stepped};

use crate::callees::{call_marked, return_marked, share_caller};
use acts::choke::choke_cell;
use acts::end::{publish, stop};
use acts::rebind::{assign, remove};
use calls::site_call::site_call;
use job::dag::{NodeKind, WORDS};
use model::record::Machine;
use model::reply::Report;
use reach::used::Marks;
use spawns::fork::fork;
use spawns::where_split::where_split;
use writes::actor::Actor;
use writes::dag::dag_word;

// The token acts at its node.
pub(crate) fn act(
    w: &mut [u32; Machine::WORDS],
    marks: &mut Marks,
    shared: &mut [bool; Machine::TOKENS],
    dag: &[u32; WORDS],
    actor: Actor,
) -> Report
    requires { SomeMachine (Acting w.old marks.old dag.now actor (get_or dag.now actor.row 0)) }
    ensures { (m : Machine) → Acting w.old marks.old dag.now actor (get_or dag.now actor.row 0) m
        → OneCallee shared.old m
        → Stepped (Step.step paper (dag_of dag.now) m actor.place) m w.new marks.new shared.new result }
{
    let Some(kind) = NodeKind::from_word(dag_word(dag, actor.row)) else {
        unreachable!()
    };
    match kind {
        NodeKind::Stop => stop(w, marks, dag, actor),
        NodeKind::Site => site_call(w, marks, dag, actor),
        NodeKind::Call => call_marked(w, marks, shared, dag, actor),
        NodeKind::Fork => {
            share_caller(w, actor.token, shared);
            fork(w, marks, dag, actor)
        }
        NodeKind::Assign => assign(w, marks, dag, actor),
        NodeKind::Remove => remove(w, marks, dag, actor),
        NodeKind::Where => {
            share_caller(w, actor.token, shared);
            where_split(w, marks, dag, actor)
        }
        NodeKind::Choke => choke_cell(w, marks, dag, actor),
        NodeKind::Return => return_marked(w, marks, shared, dag, actor),
        NodeKind::Publish => publish(w, marks, dag, actor),
    }
}
