// Site call: "parameters in order; the first unset cell makes the token wait there. Otherwise a built-in replies and the token goes on, or
// it is silent and the token ends; an outside call takes the next handle (from 0), and the token is called out at the next node".
ghost use Rattle.std.specs.Prelude.{◌≡◌, ◌≤◌, ◌+◌, get_or};
ghost use Rattle.model.specs.declared.record.Machine.{Machine};
ghost use Rattle.job.specs.Words.{dag_of};
ghost use Rattle.model.specs.Machine.Limits.{paper};
ghost use Rattle.model.specs.Machine.Step as Step;
ghost use Rattle.sites.specs.SiteReply.{site_number};
ghost use Rattle.acts.specs.Acting.{SomeMachine, Acting, Gives};
ghost use Rattle.calls.specs.SiteCall.{Evaluated};

use crate::rwait::{TimedReply, settle};
use acts::end::end;
use acts::report::plain;
use job::dag::{CALL_LIMIT, NAMED_NUMBER, NEXT_NODE, PARAMETER_COUNT, WORDS};
use model::record::Machine;
use model::reply::{Refusal, Reply, Report};
use reach::used::Marks;
use record::count::calls_made;
use sites::look::{UnsetCell, look_up};
use sites::number::unsigned;
use sites::site::{BuiltInSite, OutsideSite, builtin};
use writes::actor::Actor;
use writes::dag::dag_word;
use writes::site_call::{call_out, due_later, reply, wait};

// "13: outside call, all values there, after 1,000,000 such calls."
fn outside(
    w: &mut [u32; Machine::WORDS],
    marks: &Marks,
    dag: &[u32; WORDS],
    actor: Actor,
    values: [i32; 4],
) -> Report
    requires { SomeMachine (Evaluated w.old marks.now dag.now actor values) }
    ensures { (m : Machine) → Evaluated w.old marks.now dag.now actor values m
        → 8 ≤ get_or dag.now (actor.row + 1) 0
        → Gives (Step.step paper (dag_of dag.now) m actor.place) m w.new marks.now result }
{
    let handle = calls_made(w);
    if CALL_LIMIT <= handle {
        return plain(Reply::Refused(Refusal::CallLimit));
    }
    call_out(w, actor, handle, dag_word(dag, actor.row + NEXT_NODE));
    let site = dag_word(dag, actor.row + NAMED_NUMBER) as u16;
    let count = dag_word(dag, actor.row + PARAMETER_COUNT) as u8;
    Report {
        reply: Reply::Called(handle, site, count),
        values,
    }
}

// "A built-in replies and the token goes on, or it is silent and the token ends"; rwait replies in time.
fn built_in(
    w: &mut [u32; Machine::WORDS],
    marks: &mut Marks,
    dag: &[u32; WORDS],
    actor: Actor,
    site: BuiltInSite,
    values: [i32; 4],
) -> Report
    requires { SomeMachine (Evaluated w.old marks.old dag.now actor values) × (site_number site ≡ get_or dag.now (actor.row + 1) 0) }
    ensures { (m : Machine) → Evaluated w.old marks.old dag.now actor values m
        → Gives (Step.step paper (dag_of dag.now) m actor.place) m w.new marks.new result }
{
    let said = builtin(site, values[0], values[1]);
    match settle(w, said) {
        TimedReply::Gives(v) => {
            reply(w, actor, unsigned(v), dag_word(dag, actor.row + NEXT_NODE));
            plain(Reply::Done)
        }
        TimedReply::Silent => end(w, marks, actor, Reply::Done),
        TimedReply::Due(due) => {
            due_later(w, actor, due, dag_word(dag, actor.row + NEXT_NODE));
            plain(Reply::Done)
        }
    }
}

pub fn site_call(
    w: &mut [u32; Machine::WORDS],
    marks: &mut Marks,
    dag: &[u32; WORDS],
    actor: Actor,
) -> Report
    requires { SomeMachine (Acting w.old marks.old dag.now actor 1) }
    ensures { (m : Machine) → Acting w.old marks.old dag.now actor 1 m
        → Gives (Step.step paper (dag_of dag.now) m actor.place) m w.new marks.new result }
{
    let values = match look_up(w, dag, actor.token, actor.row) {
        Ok(values) => values,
        Err(UnsetCell(cell)) => {
            wait(w, actor, cell);
            return plain(Reply::Waits);
        }
    };
    match BuiltInSite::try_from(dag_word(dag, actor.row + NAMED_NUMBER)) {
        Ok(site) => built_in(w, marks, dag, actor, site, values),
        Err(OutsideSite) => outside(w, marks, dag, actor, values),
    }
}
