// Choke: "set the cell; all tokens of it and of its descendants end; waiters become ready".
ghost use Rattle.model.specs.declared.record.Machine.{Machine};
ghost use Rattle.job.specs.Words.{dag_of};
ghost use Rattle.model.specs.Machine.Limits.{paper};
ghost use Rattle.model.specs.Machine.Step as Step;
ghost use Rattle.acts.specs.Acting.{SomeMachine, Acting, Gives};

use crate::report::plain;
use job::dag::WORDS;
use job::wide::wide;
use model::record::Machine;
use model::reply::{Reply, Report};
use pruning::choke::written;
use reach::marks::marked_end;
use reach::used::Marks;
use record::{cell, token};
use sweep::sweep::sweep_to;
use writes::actor::Actor;

// "choke: set the cell; ..": "a token .. at choke [names] a cell".
pub fn choke_cell(
    w: &mut [u32; Machine::WORDS],
    marks: &mut Marks,
    dag: &[u32; WORDS],
    actor: Actor,
) -> Report
    requires { SomeMachine (Acting w.old marks.old dag.now actor 7) }
    ensures { (m : Machine) → Acting w.old marks.old dag.now actor 7 m
        → Gives (Step.step paper (dag_of dag.now) m actor.place) m w.new marks.new result }
{
    let c = wide(token::cell(w, actor.token));
    let kind = token::value_kind(w, actor.token);
    let value = token::value(w, actor.token);
    let end = marked_end(&marks.tokens);
    written(w, actor.place, c - 1, kind, value, end);
    sweep_to(w, marks, end);
    plain(Reply::Done)
}
