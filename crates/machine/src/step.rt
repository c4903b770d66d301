// One step of the token that the queue has at a place.
ghost use Rattle.machine.specs.PublicCalls.{HasResult, step_on};

use crate::lawful::lawful_marks;
use acts::report::plain;
use job::dag::WORDS;
use model::record::Machine;
use model::reply::{Refusal, Reply, Report};
use record::order::{Queue, count};

// "A step tests 14, 9, then 10, 11 or 13." A refused one leaves every word.
pub fn step(w: &mut [u32; Machine::WORDS], dag: &[u32; WORDS], place: usize) -> Report
    ensures { HasResult (step_on dag.now w.old place) result w.new }
{
    let Some(mut marks) = lawful_marks(w, dag) else {
        return plain(Reply::Refused(Refusal::Rule));
    };
    if count::<Queue>(w) as usize <= place {
        return plain(Reply::Refused(Refusal::NoToken));
    }
    let mut shared = [true; Machine::TOKENS];
    unchecked::step::step(w, &mut marks, &mut shared, dag, place)
}
