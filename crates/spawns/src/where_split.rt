// Where: "left binds x to the new cell; right is new and belongs to it".
ghost use Rattle.std.specs.Prelude.{◌<◌};
ghost use Rattle.model.specs.declared.record.Machine.{Machine};
ghost use Rattle.job.specs.Words.{dag_of};
ghost use Rattle.model.specs.Machine.Limits.{paper};
ghost use Rattle.model.specs.Machine.Step as Step;
ghost use Rattle.acts.specs.Acting.{SomeMachine, Acting, Gives};

use acts::report::plain;
use job::dag::{BINDER, LEFT_NODE, RIGHT_NODE, WORDS};
use job::wide::wide;
use model::record::Machine;
use model::reply::{Refusal, Reply, Report};
use places::place::{next_cell, next_token};
use reach::used::Marks;
use record::count::{last_cell, last_token};
use spawn_writes::branches::Branches;
use spawn_writes::where_split::written;
use writes::actor::Actor;
use writes::dag::dag_word;

// "10: .. where .. with 64 tokens in use"; "11: where with 32 cells in use."
pub fn where_split(
    w: &mut [u32; Machine::WORDS],
    marks: &mut Marks,
    dag: &[u32; WORDS],
    actor: Actor,
) -> Report
    requires { SomeMachine (Acting w.old marks.old dag.now actor 6) }
    ensures { (m : Machine) → Acting w.old marks.old dag.now actor 6 m
        → Gives (Step.step paper (dag_of dag.now) m actor.place) m w.new marks.new result }
{
    let Some(new) = next_token(&marks.tokens, last_token(w)) else {
        return plain(Reply::Refused(Refusal::TokenLimit));
    };
    let Some(c) = next_cell(&marks.cells, last_cell(w)) else {
        return plain(Reply::Refused(Refusal::CellLimit));
    };
    written(
        w,
        actor,
        new,
        c,
        wide(dag_word(dag, actor.row + BINDER)),
        Branches {
            left: dag_word(dag, actor.row + LEFT_NODE),
            right: dag_word(dag, actor.row + RIGHT_NODE),
        },
    );
    marks.tokens[new] = true;
    marks.cells[c] = true;
    plain(Reply::Done)
}
