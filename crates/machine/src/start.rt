// The start.
ghost use Rattle.machine.specs.PublicCalls.{HasResult, start_on};

use acts::report::plain;
use dag_rules::dag::dag_holds;
use job::dag::{GOAL, WORDS};
use model::record::Machine;
use model::reply::{Refusal, Reply, Report};

// One ready token at the goal, whatever the words were; refused (14) where the dag breaks an index rule, and then every word stays.
pub fn start(w: &mut [u32; Machine::WORDS], dag: &[u32; WORDS]) -> Report
    ensures { HasResult (start_on dag.now w.old) result w.new }
{
    if dag_holds(dag) {
        record::start::start(w, dag[GOAL]);
        return plain(Reply::Done);
    }
    plain(Reply::Refused(Refusal::Rule))
}
