// Stop, publish, a silent site: "the token ends".
ghost use Rattle.std.specs.Prelude.{◌<◌, List, [], false, ℕ};
ghost use Rattle.model.specs.declared.record.Machine.{Machine};
ghost use Rattle.record.specs.Changes.{dequeued};
ghost use Rattle.model.specs.Machine.Blank.{blank_token};
ghost use Rattle.model.specs.Machine.Update.{put};
ghost use Rattle.job.specs.Words.{dag_of};
ghost use Rattle.model.specs.Machine.Limits.{paper};
ghost use Rattle.model.specs.Machine.Step as Step;
ghost use Rattle.acts.specs.Acting.{SomeMachine, Acting, Gives};
ghost use Rattle.model.specs.Machine.Reply.{accepted};
ghost use Rattle.acts.specs.Acting.{Taking};

use crate::links::names;
use crate::report::plain;
use job::dag::WORDS;
use model::record::Machine;
use model::reply::{Reply, Report};
use reach::used::Marks;
use record::token::value;
use sites::number::signed;
use sweep::sweep::sweep;
use writes::actor::Actor;
use writes::end::written;

// Where it named nothing, nothing else can be out of reach.
pub fn end(w: &mut [u32; Machine::WORDS], marks: &mut Marks, actor: Actor, reply: Reply) -> Report
    requires { actor.token < 64 }
    ensures { (m : Machine) (dag : List ℕ) → Taking w.old marks.old dag actor m
        → Gives (accepted reply [] (put actor.token blank_token (dequeued m actor.place))) m w.new marks.new result }
{
    let linked = names(w, actor.token);
    written(w, actor);
    if linked {
        sweep(w, marks);
    } else {
        marks.tokens[actor.token] = false;
    }
    plain(reply)
}

// Stop.
pub fn stop(
    w: &mut [u32; Machine::WORDS],
    marks: &mut Marks,
    dag: &[u32; WORDS],
    actor: Actor,
) -> Report
    requires { SomeMachine (Acting w.old marks.old dag.now actor 0) }
    ensures { (m : Machine) → Acting w.old marks.old dag.now actor 0 m
        → Gives (Step.step paper (dag_of dag.now) m actor.place) m w.new marks.new result }
{
    end(w, marks, actor, Reply::Done)
}

// "publish reports its value"
pub fn publish(
    w: &mut [u32; Machine::WORDS],
    marks: &mut Marks,
    dag: &[u32; WORDS],
    actor: Actor,
) -> Report
    requires { SomeMachine (Acting w.old marks.old dag.now actor 9) }
    ensures { (m : Machine) → Acting w.old marks.old dag.now actor 9 m
        → Gives (Step.step paper (dag_of dag.now) m actor.place) m w.new marks.new result }
{
    let v = signed(value(w, actor.token));
    end(w, marks, actor, Reply::Published(v))
}
