// Return: "the place takes a copy of the frame with the value".
ghost use Rattle.model.specs.declared.record.Machine.{Machine};
ghost use Rattle.job.specs.Words.{dag_of};
ghost use Rattle.model.specs.Machine.Limits.{paper};
ghost use Rattle.model.specs.Machine.Step as Step;
ghost use Rattle.std.specs.Prelude.{◌≡◌, false, ◌<◌};
ghost use Rattle.record.specs.Holds.{Codes};
ghost use Rattle.acts.specs.Acting.{SomeMachine, Acting, Gives};
ghost use Rattle.acts.specs.SharedFrames.{Alone};
ghost use Rattle.returns.specs.Frame.{SameCells};

use crate::frame::release;
use acts::links::binds_cell;
use acts::report::plain;
use job::dag::WORDS;
use job::wide::wide;
use model::record::Machine;
use model::reply::{Reply, Report};
use reach::used::Marks;
use record::token::{caller, cell};
use sweep::sweep::sweep;
use writes::actor::Actor;
use writes::return_value::written;

// May a cell be out of use once the token at p has the links of the one at f?
fn may_lose_cell(w: &[u32; Machine::WORDS], p: usize, f: usize) -> bool
    requires { (p < 64) × (f < 64) }
    ensures { (m : Machine) → Codes w.now m → result ≡ false → SameCells m p f }
{
    if cell(w, p) == cell(w, f) {
        return binds_cell(w, p);
    }
    true
}

// "A token at return names a frame." Where it is not shared, no other token names it.
pub fn return_value(
    w: &mut [u32; Machine::WORDS],
    marks: &mut Marks,
    dag: &[u32; WORDS],
    actor: Actor,
    shared: bool,
) -> Report
    requires { SomeMachine (Acting w.old marks.old dag.now actor 8) }
    ensures { (m : Machine) → Acting w.old marks.old dag.now actor 8 m
        → (shared ≡ false → Alone m actor.token)
        → Gives (Step.step paper (dag_of dag.now) m actor.place) m w.new marks.new result }
{
    let f = wide(caller(w, actor.token)) - 1;
    let lost = may_lose_cell(w, actor.token, f);
    written(w, actor, f);
    if lost {
        sweep(w, marks);
    } else {
        release(w, &mut marks.tokens, f, shared);
    }
    plain(Reply::Done)
}
