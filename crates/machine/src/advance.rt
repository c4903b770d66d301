// A clock move.
ghost use Rattle.machine.specs.PublicCalls.{HasResult, advance_on};

use crate::lawful::lawful_marks;
use acts::report::plain;
use job::dag::WORDS;
use model::record::Machine;
use model::reply::{Refusal, Reply, Report};

// "Checks: 15, the clock would go back or leave its range, after 14." A refused one leaves every word.
pub fn advance(w: &mut [u32; Machine::WORDS], dag: &[u32; WORDS], time: u32) -> Report
    ensures { HasResult (advance_on dag.now w.old time) result w.new }
{
    if lawful_marks(w, dag).is_none() {
        return plain(Reply::Refused(Refusal::Rule));
    }
    unchecked::advance::advance(w, time)
}
